//! Headers of running orders from their events.
ghost use Rattle.std.specs.Prelude.{◌≡◌, List, [], ◌∷◌, IfOk};
ghost use Rattle.mos_fields.specs.Characters.{Text};
ghost use Rattle.mos_tables.specs.declared.table.Table.TheVariants as tables;
ghost use Rattle.mos_fields.specs.declared.field.Field.TheVariants as fields;
ghost use Rattle.mos_values.specs.Parts.{must};
ghost use Rattle.mos_values.specs.Views.{patch_events};
ghost use Rattle.mos_cursor.specs.Slots.{parts_of};
ghost use Rattle.mos_cursor.specs.Parts.{places, parts_events};
ghost use Rattle.mos_tables.specs.Tables.{columns};
ghost use Rattle.mos_cursor.specs.Accepted.{IsAccepted, AllFit};

use mos_cursor::{Cursor, Slot, record_slots};
use mos_fields::{Id, NoMemory};
use mos_tables::Table;
use mos_values::HeaderPatch;
use std::alloc::Global;

/// The header of these parts.
#[tactic(auto, unfolding(mos_values::specs::Views::patch_events))]
fn patch_with(
    alloc: Global,
    ro: Slot,
    slug: Slot,
    channel: Slot,
    ed_start: Slot,
    ed_dur: Slot,
    trigger: Slot,
    macro_in: Slot,
    macro_out: Slot,
    metadata: Slot,
    others: Slot,
) -> Result<HeaderPatch, NoMemory>
    requires { AllFit tables.HeaderPatch (places (columns tables.HeaderPatch)) (parts_of (ro ∷ slug ∷ channel ∷ ed_start ∷ ed_dur ∷ trigger ∷ macro_in ∷ macro_out ∷ metadata ∷ others ∷ [])) }
    ensures { IfOk result (λ h. patch_events h ≡ parts_events (places (columns tables.HeaderPatch)) (parts_of (ro ∷ slug ∷ channel ∷ ed_start ∷ ed_dur ∷ trigger ∷ macro_in ∷ macro_out ∷ metadata ∷ others ∷ []))) }
{
    Ok(HeaderPatch {
        ro: ro.id(),
        slug: slug.optional_slug(),
        channel: channel.optional_text(),
        ed_start: ed_start.optional_text(),
        ed_dur: ed_dur.optional_text(),
        trigger: trigger.optional_text(),
        macro_in: macro_in.optional_text(),
        macro_out: macro_out.optional_text(),
        metadata: metadata.raws(alloc)?,
        others: others.raws(alloc)?,
    })
}

/// The header of these events. The only error is that memory runs out.
pub fn patch_of(alloc: Global, cursor: Cursor) -> Result<HeaderPatch, NoMemory>
    requires { (taken : List Text) × IsAccepted tables.HeaderPatch taken cursor }
    ensures { IfOk result (λ h. patch_events h ≡ cursor) }
{
    let slots: [Slot; 10] = record_slots::<10>(alloc, Table::HeaderPatch, cursor)?;
    let [
        ro,
        slug,
        channel,
        ed_start,
        ed_dur,
        trigger,
        macro_in,
        macro_out,
        metadata,
        others,
    ] = slots;
    patch_with(
        alloc, ro, slug, channel, ed_start, ed_dur, trigger, macro_in, macro_out, metadata, others,
    )
}

/// The identifier of an order, from the events of a record that holds only it. The only error is that memory runs out.
#[tactic(auto, unfolding(mos_values::specs::Parts::must))]
pub fn order_of(alloc: Global, cursor: Cursor) -> Result<Id, NoMemory>
    requires { (taken : List Text) × IsAccepted tables.OneOrder taken cursor }
    ensures { IfOk result (λ h. must fields.RoID h ≡ cursor) }
{
    let slots: [Slot; 1] = record_slots::<1>(alloc, Table::OneOrder, cursor)?;
    let [ro] = slots;
    Ok(ro.id())
}
