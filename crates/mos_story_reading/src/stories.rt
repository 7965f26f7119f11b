//! Stories from their events.
ghost use Rattle.std.specs.Prelude.{◌≡◌, List, [], ◌∷◌, ◌++◌, IfOk, map};
ghost use Rattle.std.specs.List.{AllByRecursion, flat_map};
ghost use Rattle.mos_fields.specs.Characters.{Text};
ghost use Rattle.mos_fields.specs.Fields.{name_of};
ghost use Rattle.mos_fields.specs.declared.field.Field.TheVariants as fields;
ghost use Rattle.mos_tables.specs.Tables.{columns};
ghost use Rattle.mos_tables.specs.declared.table.Table.{Table as Table_};
ghost use Rattle.mos_tables.specs.declared.table.Table.TheVariants as tables;
ghost use Rattle.mos_values.specs.Distinct.{AreDistinct, item_ids, story_ids};
ghost use Rattle.mos_values.specs.Views.{items_events, stories_events, story_events};
ghost use Rattle.mos_cursor.specs.Accepted.{AllFit, AnyRecords, IsAccepted, RecordsFit};
ghost use Rattle.mos_cursor.specs.Parts.{part_events, parts_events, places, record_events};
ghost use Rattle.mos_cursor.specs.Slots.{part_of, parts_of, record_of};
ghost use Rattle.mos_cursor.specs.Inner.{Holds, inner_events};

use crate::items::items_of;
use mos_cursor::{Cursor, Nested, Slot, record_slots};
use mos_fields::{NoMemory, pair_ok, triple_ok};
use mos_tables::Table;
use mos_values::{Items, Sequence, Stories, Story};
use std::alloc::Global;

/// The items of this part of a story.
fn items_in(alloc: Global, slot: Slot) -> Result<Items, NoMemory>
    requires { AnyRecords tables.Story tables.Item (part_of slot) }
    ensures events { IfOk result (λ items. items_events items ≡ part_events fields.ItemTag (part_of slot)) }
    ensures distinct { IfOk result (λ items. AreDistinct (item_ids items)) }
{
    match slot {
        Slot::Records(inner) => items_of(alloc, inner),
        _ => unreachable!(),
    }
}

/// The story of these parts.
#[tactic(auto, unfolding(mos_values::specs::Views::story_events, mos_values::specs::Views::story_head_events))]
fn story_with(
    alloc: Global,
    id: Slot,
    slug: Slot,
    num: Slot,
    metadata: Slot,
    others: Slot,
    items: Slot,
) -> Result<Story, NoMemory>
    requires { AllFit tables.Story (places (columns tables.Story)) (parts_of (id ∷ slug ∷ num ∷ metadata ∷ others ∷ items ∷ [])) }
    ensures { IfOk result (λ s. story_events s ≡ parts_events (places (columns tables.Story)) (parts_of (id ∷ slug ∷ num ∷ metadata ∷ others ∷ items ∷ []))) }
{
    let ((id, slug, num), (metadata, others, items)) = pair_ok(
        triple_ok(
            Ok(id.key()),
            Ok(slug.optional_slug()),
            Ok(num.optional_text()),
        ),
        triple_ok(
            metadata.raws(alloc),
            others.raws(alloc),
            items_in(alloc, items),
        ),
    )?;
    Ok(Story {
        id,
        slug,
        num,
        metadata,
        others,
        items,
    })
}

/// The story of these events. The only error is that memory runs out.
pub fn story_of(alloc: Global, cursor: Cursor) -> Result<Story, NoMemory>
    requires { (taken : List Text) × IsAccepted tables.Story taken cursor }
    ensures { IfOk result (λ s. story_events s ≡ cursor) }
{
    let slots: [Slot; 6] = record_slots::<6>(alloc, Table::Story, cursor)?;
    let [id, slug, num, metadata, others, items] = slots;
    story_with(alloc, id, slug, num, metadata, others, items)
}

/// The stories of these records, in order. The only error is that memory runs out.
#[tactic(auto, using(mos_cursor::proofs::Read::read_start, mos_cursor::proofs::Read::read_next, mos_cursor::proofs::Read::read_more, mos_cursor::proofs::Read::read_end))]
fn read_stories(alloc: Global, inner: Sequence<Nested>) -> Result<Stories, NoMemory>
    requires { AllByRecursion (Holds tables.Story) inner }
    ensures { IfOk result (λ stories. map story_events stories ≡ map inner_events inner) }
{
    let mut rest = inner.into_vec();
    rest.reverse();
    let mut stories = Stories::new(alloc);
    'next: while let Some(record) = rest.pop() {
        stories.push(story_of(alloc, record.inner)?)?;
    }
    Ok(stories)
}

/// The stories of these records, in order. Those of an order have distinct storyIDs.
/// The only error is that memory runs out.
pub fn stories_of(alloc: Global, inner: Sequence<Nested>) -> Result<Stories, NoMemory>
    requires { (t : Table_) × RecordsFit t tables.Story [] (map record_of inner) }
    ensures events { IfOk result (λ stories. stories_events stories ≡ flat_map (record_events (name_of fields.StoryTag)) (map record_of inner)) }
    ensures distinct { IfOk result (λ stories. RecordsFit tables.Body tables.Story [] (map record_of inner) → AreDistinct (story_ids stories)) }
{
    let stories = read_stories(alloc, inner)?;
    Ok(stories)
}
