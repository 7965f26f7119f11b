//! Whether running orders are ready, from their events.
ghost use Rattle.std.specs.Prelude.{◌≡◌, ◌++◌, List, [], ◌∷◌, IfOk};
ghost use Rattle.mos_fields.specs.Characters.{Text};
ghost use Rattle.mos_fields.specs.Values.{air_text};
ghost use Rattle.mos_fields.specs.declared.field.Field.TheVariants as fields;
ghost use Rattle.mos_tables.specs.declared.table.Table.TheVariants as tables;
ghost use Rattle.mos_tables.specs.Tables.{columns};
ghost use Rattle.mos_values.specs.Parts.{must};
ghost use Rattle.mos_cursor.specs.Accepted.{AllFit, IsAccepted};
ghost use Rattle.mos_cursor.specs.Parts.{parts_events, places};
ghost use Rattle.mos_cursor.specs.Slots.{parts_of};

use mos_cursor::{Cursor, Slot, record_slots};
use mos_fields::{Air, Id, NoMemory};
use mos_tables::Table;
use std::alloc::Global;

/// The value of these parts.
#[tactic(auto, unfolding(mos_values::specs::Parts::must))]
fn release_with(alloc: Global, ro: Slot, air: Slot) -> Result<(Id, Air), NoMemory>
    requires { AllFit tables.ReadyToAir (places (columns tables.ReadyToAir)) (parts_of (ro ∷ air ∷ [])) }
    ensures { IfOk result (λ v. must fields.RoID v.0 ++ must fields.RoAir (air_text v.1) ≡ parts_events (places (columns tables.ReadyToAir)) (parts_of (ro ∷ air ∷ []))) }
{
    Ok((ro.id(), air.air(alloc)?))
}

/// The running order of these events, and whether it is ready. The only error is that memory runs out.
pub fn release_of(alloc: Global, cursor: Cursor) -> Result<(Id, Air), NoMemory>
    requires { (taken : List Text) × IsAccepted tables.ReadyToAir taken cursor }
    ensures { IfOk result (λ v. must fields.RoID v.0 ++ must fields.RoAir (air_text v.1) ≡ cursor) }
{
    let slots: [Slot; 2] = record_slots::<2>(alloc, Table::ReadyToAir, cursor)?;
    let [ro, air] = slots;
    release_with(alloc, ro, air)
}
