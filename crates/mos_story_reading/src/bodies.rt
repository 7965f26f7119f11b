//! Whole running orders from their events.
ghost use Rattle.std.specs.Prelude.{◌≡◌, List, [], ◌∷◌, ◌++◌, IfOk};
ghost use Rattle.mos_fields.specs.Characters.{Text};
ghost use Rattle.mos_fields.specs.declared.field.Field.TheVariants as fields;
ghost use Rattle.mos_tables.specs.Tables.{columns};
ghost use Rattle.mos_tables.specs.declared.table.Table.TheVariants as tables;
ghost use Rattle.mos_values.specs.Distinct.{AreDistinct, story_ids};
ghost use Rattle.mos_values.specs.Views.{body_events, header_events, stories_events};
ghost use Rattle.mos_cursor.specs.Accepted.{AllFit, AnyRecords, IsAccepted};
ghost use Rattle.mos_cursor.specs.Parts.{part_events, parts_events, places};
ghost use Rattle.mos_cursor.specs.Slots.{part_of, parts_of};
ghost use Rattle.mos_story_reading.specs.HeaderPlaces.{header_places};

use crate::stories::stories_of;
use mos_cursor::{Cursor, Slot, record_slots};
use mos_fields::{NoMemory, pair_ok, triple_ok};
use mos_tables::Table;
use mos_values::{Header, OrderBody, Stories};
use std::alloc::Global;

/// The stories of this part of an order.
fn stories_in(alloc: Global, slot: Slot) -> Result<Stories, NoMemory>
    requires { AnyRecords tables.Body tables.Story (part_of slot) }
    ensures events { IfOk result (λ stories. stories_events stories ≡ part_events fields.StoryTag (part_of slot)) }
    ensures distinct { IfOk result (λ stories. AreDistinct (story_ids stories)) }
{
    match slot {
        Slot::Records(inner) => stories_of(alloc, inner),
        _ => unreachable!(),
    }
}

/// The header of these parts.
#[tactic(auto, unfolding(mos_values::specs::Views::header_events))]
fn header_with(
    alloc: Global,
    ro: Slot,
    slug: Slot,
    channel: Slot,
    ed_start: Slot,
    ed_dur: Slot,
    trigger: Slot,
    macro_in: Slot,
    macro_out: Slot,
    metadata: Slot,
    others: Slot,
) -> Result<Header, NoMemory>
    requires { AllFit tables.Body header_places (parts_of (ro ∷ slug ∷ channel ∷ ed_start ∷ ed_dur ∷ trigger ∷ macro_in ∷ macro_out ∷ metadata ∷ others ∷ [])) }
    ensures { IfOk result (λ h. header_events h ≡ parts_events header_places (parts_of (ro ∷ slug ∷ channel ∷ ed_start ∷ ed_dur ∷ trigger ∷ macro_in ∷ macro_out ∷ metadata ∷ others ∷ []))) }
{
    let (
        ((ro, slug, channel), (ed_start, ed_dur, trigger)),
        ((macro_in, macro_out), (metadata, others)),
    ) = pair_ok(
        pair_ok(
            triple_ok(Ok(ro.id()), Ok(slug.slug()), Ok(channel.optional_text())),
            triple_ok(
                Ok(ed_start.optional_text()),
                Ok(ed_dur.optional_text()),
                Ok(trigger.optional_text()),
            ),
        ),
        pair_ok(
            pair_ok(Ok(macro_in.optional_text()), Ok(macro_out.optional_text())),
            pair_ok(metadata.raws(alloc), others.raws(alloc)),
        ),
    )?;
    Ok(Header {
        ro,
        slug,
        channel,
        ed_start,
        ed_dur,
        trigger,
        macro_in,
        macro_out,
        metadata,
        others,
    })
}

/// The order with this header, and the stories of this part.
#[tactic(auto, unfolding(mos_values::specs::Views::body_events))]
fn body_with(alloc: Global, header: Header, stories: Slot) -> Result<OrderBody, NoMemory>
    requires { AnyRecords tables.Body tables.Story (part_of stories) }
    ensures { IfOk result (λ b. body_events b ≡ header_events header ++ part_events fields.StoryTag (part_of stories)) }
{
    let stories = stories_in(alloc, stories)?;
    Ok(OrderBody { header, stories })
}

/// The order of these parts.
fn body_from(
    alloc: Global,
    ro: Slot,
    slug: Slot,
    channel: Slot,
    ed_start: Slot,
    ed_dur: Slot,
    trigger: Slot,
    macro_in: Slot,
    macro_out: Slot,
    metadata: Slot,
    others: Slot,
    stories: Slot,
) -> Result<OrderBody, NoMemory>
    requires { AllFit tables.Body (places (columns tables.Body)) (parts_of (ro ∷ slug ∷ channel ∷ ed_start ∷ ed_dur ∷ trigger ∷ macro_in ∷ macro_out ∷ metadata ∷ others ∷ stories ∷ [])) }
    ensures { IfOk result (λ b. body_events b ≡ parts_events (places (columns tables.Body)) (parts_of (ro ∷ slug ∷ channel ∷ ed_start ∷ ed_dur ∷ trigger ∷ macro_in ∷ macro_out ∷ metadata ∷ others ∷ stories ∷ []))) }
{
    let header = header_with(
        alloc, ro, slug, channel, ed_start, ed_dur, trigger, macro_in, macro_out, metadata, others,
    )?;
    let order = body_with(alloc, header, stories)?;
    Ok(order)
}

/// The whole order of these events. The only error is that memory runs out.
pub fn body_of(alloc: Global, cursor: Cursor) -> Result<OrderBody, NoMemory>
    requires { (taken : List Text) × IsAccepted tables.Body taken cursor }
    ensures { IfOk result (λ b. body_events b ≡ cursor) }
{
    let slots: [Slot; 11] = record_slots::<11>(alloc, Table::Body, cursor)?;
    let [
        ro,
        slug,
        channel,
        ed_start,
        ed_dur,
        trigger,
        macro_in,
        macro_out,
        metadata,
        others,
        stories,
    ] = slots;
    body_from(
        alloc, ro, slug, channel, ed_start, ed_dur, trigger, macro_in, macro_out, metadata, others,
        stories,
    )
}
