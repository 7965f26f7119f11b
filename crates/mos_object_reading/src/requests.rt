//! Messages of one field from their events.
ghost use Rattle.std.specs.Prelude.{◌≡◌, List, IfOk};
ghost use Rattle.mos_fields.specs.Characters.{Text};
ghost use Rattle.mos_fields.specs.Values.{samples_text, time_text};
ghost use Rattle.mos_fields.specs.declared.field.Field.TheVariants as fields;
ghost use Rattle.mos_tables.specs.declared.table.Table.TheVariants as tables;
ghost use Rattle.mos_values.specs.Parts.{must};
ghost use Rattle.mos_cursor.specs.Accepted.{IsAccepted};

use mos_cursor::{Cursor, Slot, record_slots};
use mos_fields::{Id, MosTime, NoMemory, Samples};
use mos_tables::Table;
use std::alloc::Global;

/// The time of a heartbeat, from its events. The only error is that memory runs out.
#[tactic(auto, unfolding(mos_values::specs::Parts::must))]
pub fn time_of(alloc: Global, cursor: Cursor) -> Result<MosTime, NoMemory>
    requires { (taken : List Text) × IsAccepted tables.Heartbeat taken cursor }
    ensures { IfOk result (λ t. must fields.TimeTag (time_text t) ≡ cursor) }
{
    let slots: [Slot; 1] = record_slots::<1>(alloc, Table::Heartbeat, cursor)?;
    let [time] = slots;
    time.time(alloc)
}

/// The object that mosReqObj asks for, from its events. The only error is that memory runs out.
#[tactic(auto, unfolding(mos_values::specs::Parts::must))]
pub fn object_id_of(alloc: Global, cursor: Cursor) -> Result<Id, NoMemory>
    requires { (taken : List Text) × IsAccepted tables.MosReqObj taken cursor }
    ensures { IfOk result (λ id. must fields.ObjID id ≡ cursor) }
{
    let slots: [Slot; 1] = record_slots::<1>(alloc, Table::MosReqObj, cursor)?;
    let [obj] = slots;
    Ok(obj.id())
}

/// The pause between two objects that mosReqAll asks for, from its events. The only error is that memory runs out.
#[tactic(auto, unfolding(mos_values::specs::Parts::must))]
pub fn pause_of(alloc: Global, cursor: Cursor) -> Result<Samples, NoMemory>
    requires { (taken : List Text) × IsAccepted tables.MosReqAll taken cursor }
    ensures { IfOk result (λ n. must fields.Pause (samples_text n) ≡ cursor) }
{
    let slots: [Slot; 1] = record_slots::<1>(alloc, Table::MosReqAll, cursor)?;
    let [pause] = slots;
    pause.samples(alloc)
}
