//! The fields of each record, in the order of its table.
ghost use Rattle.std.specs.Prelude.{◌≡◌};
ghost use Rattle.mos_values.specs.Pieces.{pieces_events};
ghost use Rattle.mos_values.specs.Views.{header_events, patch_events, item_events, story_head_events, element_stat_events, group_events, story_send_events};

use crate::ack_group::AckGroup;
use crate::element_stat::ElementStat;
use crate::header::{Header, HeaderPatch};
use crate::item::Item;
use crate::piece::Piece;
use crate::story::Story;
use crate::story_send::StorySend;
use mos_fields::Field;

/// The fields of a header.
#[tactic(auto, unfolding(crate::specs::Views::header_events, crate::specs::Pieces::pieces_events))]
pub fn header_pieces(h: &Header) -> [Piece<'_>; 10]
    ensures { pieces_events result ≡ header_events h.now }
{
    [
        Piece::Text(Field::RoID, h.ro.text()),
        Piece::Text(Field::RoSlug, h.slug.text()),
        Piece::OptionalText(Field::RoChannel, &h.channel),
        Piece::OptionalText(Field::RoEdStart, &h.ed_start),
        Piece::OptionalText(Field::RoEdDur, &h.ed_dur),
        Piece::OptionalText(Field::RoTrigger, &h.trigger),
        Piece::OptionalText(Field::MacroIn, &h.macro_in),
        Piece::OptionalText(Field::MacroOut, &h.macro_out),
        Piece::Raws(Field::Metadata, h.metadata.as_slice()),
        Piece::Raws(Field::Kept, h.others.as_slice()),
    ]
}

/// The fields of a header whose slug may be absent.
#[tactic(auto, unfolding(crate::specs::Views::patch_events, crate::specs::Pieces::pieces_events))]
pub fn patch_pieces(h: &HeaderPatch) -> [Piece<'_>; 10]
    ensures { pieces_events result ≡ patch_events h.now }
{
    [
        Piece::Text(Field::RoID, h.ro.text()),
        Piece::OptionalSlug(Field::RoSlug, &h.slug),
        Piece::OptionalText(Field::RoChannel, &h.channel),
        Piece::OptionalText(Field::RoEdStart, &h.ed_start),
        Piece::OptionalText(Field::RoEdDur, &h.ed_dur),
        Piece::OptionalText(Field::RoTrigger, &h.trigger),
        Piece::OptionalText(Field::MacroIn, &h.macro_in),
        Piece::OptionalText(Field::MacroOut, &h.macro_out),
        Piece::Raws(Field::Metadata, h.metadata.as_slice()),
        Piece::Raws(Field::Kept, h.others.as_slice()),
    ]
}

/// The fields of an item.
#[tactic(auto, unfolding(crate::specs::Views::item_events, crate::specs::Pieces::pieces_events))]
pub fn item_pieces(i: &Item) -> [Piece<'_>; 15]
    ensures { pieces_events result ≡ item_events i.now }
{
    [
        Piece::Text(Field::ItemID, i.id.text()),
        Piece::OptionalSlug(Field::ItemSlug, &i.slug),
        Piece::Text(Field::ObjID, i.obj.text()),
        Piece::Text(Field::MosID, i.mos.text()),
        Piece::OptionalRaw(Field::MosAbstract, &i.mos_abstract),
        Piece::OptionalRaw(Field::ObjPaths, &i.obj_paths),
        Piece::OptionalText(Field::ItemChannel, &i.channel),
        Piece::OptionalSamples(Field::ItemEdStart, i.ed_start),
        Piece::OptionalSamples(Field::ItemEdDur, i.ed_dur),
        Piece::OptionalSamples(Field::ItemUserTimingDur, i.user_timing_dur),
        Piece::OptionalText(Field::ItemTrigger, &i.trigger),
        Piece::OptionalText(Field::MacroIn, &i.macro_in),
        Piece::OptionalText(Field::MacroOut, &i.macro_out),
        Piece::Raws(Field::Metadata, i.metadata.as_slice()),
        Piece::Raws(Field::Kept, i.others.as_slice()),
    ]
}

/// The fields of a story, before its items.
#[tactic(auto, unfolding(crate::specs::Views::story_head_events, crate::specs::Pieces::pieces_events))]
pub fn story_head_pieces(s: &Story) -> [Piece<'_>; 5]
    ensures { pieces_events result ≡ story_head_events s.now }
{
    [
        Piece::Text(Field::StoryID, s.id.text()),
        Piece::OptionalSlug(Field::StorySlug, &s.slug),
        Piece::OptionalText(Field::StoryNum, &s.num),
        Piece::Raws(Field::Metadata, s.metadata.as_slice()),
        Piece::Raws(Field::Kept, s.others.as_slice()),
    ]
}

/// The fields of a status.
#[tactic(auto, unfolding(crate::specs::Views::element_stat_events, crate::specs::Pieces::pieces_events))]
pub fn element_stat_pieces(e: &ElementStat) -> [Piece<'_>; 7]
    ensures { pieces_events result ≡ element_stat_events e.now }
{
    [
        Piece::Text(Field::RoID, e.ro.text()),
        Piece::OptionalOptId(Field::StoryID, &e.story),
        Piece::OptionalOptId(Field::ItemID, &e.item),
        Piece::OptionalOptId(Field::ObjID, &e.obj),
        Piece::OptionalText(Field::ItemChannel, &e.channel),
        Piece::Text(Field::Status, &e.status),
        Piece::Time(Field::TimeTag, &e.time),
    ]
}

/// The fields of a status in a roAck.
#[tactic(auto, unfolding(crate::specs::Views::group_events, crate::specs::Pieces::pieces_events))]
pub fn group_pieces(g: &AckGroup) -> [Piece<'_>; 5]
    ensures { pieces_events result ≡ group_events g.now }
{
    [
        Piece::Text(Field::StoryID, g.story.text()),
        Piece::Text(Field::ItemID, g.item.text()),
        Piece::Text(Field::ObjID, g.obj.text()),
        Piece::OptionalText(Field::ItemChannel, &g.channel),
        Piece::Text(Field::Status, &g.status),
    ]
}

/// The fields of a story with its text.
#[tactic(auto, unfolding(crate::specs::Views::story_send_events, crate::specs::Pieces::pieces_events))]
pub fn story_send_pieces(s: &StorySend) -> [Piece<'_>; 7]
    ensures { pieces_events result ≡ story_send_events s.now }
{
    [
        Piece::Text(Field::RoID, s.ro.text()),
        Piece::Text(Field::StoryID, s.story.text()),
        Piece::OptionalSlug(Field::StorySlug, &s.slug),
        Piece::OptionalText(Field::StoryNum, &s.num),
        Piece::Raw(Field::StoryBody, &s.body),
        Piece::Raws(Field::Metadata, s.metadata.as_slice()),
        Piece::Raws(Field::Kept, s.others.as_slice()),
    ]
}
