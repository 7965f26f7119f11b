//! Acknowledgements of media object messages from their events.
ghost use Rattle.std.specs.Prelude.{◌≡◌, List, [], ◌∷◌, IfOk};
ghost use Rattle.mos_fields.specs.Characters.{Text};
ghost use Rattle.mos_tables.specs.Tables.{columns};
ghost use Rattle.mos_tables.specs.declared.table.Table.TheVariants as tables;
ghost use Rattle.mos_values.specs.Views.{mos_ack_events};
ghost use Rattle.mos_cursor.specs.Accepted.{AllFit, IsAccepted};
ghost use Rattle.mos_cursor.specs.Parts.{parts_events, places};
ghost use Rattle.mos_cursor.specs.Slots.{parts_of};

use crate::words::ack_status;
use mos_cursor::{Cursor, Slot, record_slots};
use mos_fields::NoMemory;
use mos_tables::Table;
use mos_values::MosAck;
use std::alloc::Global;

/// The answer of these parts.
#[tactic(auto, unfolding(mos_values::specs::Views::mos_ack_events))]
fn mos_ack_with(
    alloc: Global,
    obj: Slot,
    rev: Slot,
    status: Slot,
    description: Slot,
) -> Result<MosAck, NoMemory>
    requires { AllFit tables.MosAck (places (columns tables.MosAck)) (parts_of (obj ∷ rev ∷ status ∷ description ∷ [])) }
    ensures { IfOk result (λ a. mos_ack_events a ≡ parts_events (places (columns tables.MosAck)) (parts_of (obj ∷ rev ∷ status ∷ description ∷ []))) }
{
    let rev = rev.optional_rev(alloc)?;
    Ok(MosAck {
        obj: obj.opt_id(),
        rev,
        status: ack_status(status),
        description: description.optional_text(),
    })
}

/// The answer of these events. The only error is that memory runs out.
pub fn mos_ack_of(alloc: Global, cursor: Cursor) -> Result<MosAck, NoMemory>
    requires { (taken : List Text) × IsAccepted tables.MosAck taken cursor }
    ensures { IfOk result (λ a. mos_ack_events a ≡ cursor) }
{
    let slots: [Slot; 4] = record_slots::<4>(alloc, Table::MosAck, cursor)?;
    let [obj, rev, status, description] = slots;
    mos_ack_with(alloc, obj, rev, status, description)
}
