//! Messages of machines and media objects, from the events inside their elements.
ghost use Rattle.std.specs.Prelude.{◌≡◌, List, IfOk, codes};
ghost use Rattle.mos_fields.specs.Characters.{Text};
ghost use Rattle.mos_tables.specs.declared.table.Table.TheVariants as tables;
ghost use Rattle.mos_values.specs.MessageViews.{message_events};
ghost use Rattle.mos_values.specs.Parts.{element};
ghost use Rattle.mos_cursor.specs.Accepted.{IsAccepted};

use mos_cursor::Cursor;
use mos_fields::NoMemory;
use mos_object_reading::{
    mach_info_of, mos_ack_of, object_id_of, object_of, objects_of, pause_of, time_of,
};
use mos_values::{Boxed, Message};
use std::alloc::Global;

/// The heartbeat of these events. The only error is that memory runs out.
#[tactic(auto, unfolding(mos_values::specs::MessageViews::message_events))]
pub(crate) fn heartbeat_of(alloc: Global, inner: Cursor) -> Result<Message, NoMemory>
    requires { (taken : List Text) × IsAccepted tables.Heartbeat taken inner }
    ensures { IfOk result (λ m. message_events m ≡ element (codes "heartbeat") inner) }
{
    let time = time_of(alloc, inner)?;
    Ok(Message::Heartbeat(time))
}

/// The listMachInfo of these events. The only error is that memory runs out.
#[tactic(auto, unfolding(mos_values::specs::MessageViews::message_events))]
pub(crate) fn machine_of(alloc: Global, inner: Cursor) -> Result<Message, NoMemory>
    requires { (taken : List Text) × IsAccepted tables.ListMachInfo taken inner }
    ensures { IfOk result (λ m. message_events m ≡ element (codes "listMachInfo") inner) }
{
    let info = mach_info_of(alloc, inner)?;
    Ok(Message::ListMachInfo(Boxed::new(alloc, info)?))
}

/// The mosAck of these events. The only error is that memory runs out.
#[tactic(auto, unfolding(mos_values::specs::MessageViews::message_events))]
pub(crate) fn object_ack_of(alloc: Global, inner: Cursor) -> Result<Message, NoMemory>
    requires { (taken : List Text) × IsAccepted tables.MosAck taken inner }
    ensures { IfOk result (λ m. message_events m ≡ element (codes "mosAck") inner) }
{
    let ack = mos_ack_of(alloc, inner)?;
    Ok(Message::MosAck(ack))
}

/// The mosObj of these events. The only error is that memory runs out.
#[tactic(auto, unfolding(mos_values::specs::MessageViews::message_events))]
pub(crate) fn one_object_of(alloc: Global, inner: Cursor) -> Result<Message, NoMemory>
    requires { (taken : List Text) × IsAccepted tables.MosObj taken inner }
    ensures { IfOk result (λ m. message_events m ≡ element (codes "mosObj") inner) }
{
    let obj = object_of(alloc, inner)?;
    Ok(Message::MosObj(Boxed::new(alloc, obj)?))
}

/// The mosReqObj of these events. The only error is that memory runs out.
#[tactic(auto, unfolding(mos_values::specs::MessageViews::message_events))]
pub(crate) fn object_request_of(alloc: Global, inner: Cursor) -> Result<Message, NoMemory>
    requires { (taken : List Text) × IsAccepted tables.MosReqObj taken inner }
    ensures { IfOk result (λ m. message_events m ≡ element (codes "mosReqObj") inner) }
{
    let obj = object_id_of(alloc, inner)?;
    Ok(Message::MosReqObj(obj))
}

/// The mosReqAll of these events. The only error is that memory runs out.
#[tactic(auto, unfolding(mos_values::specs::MessageViews::message_events))]
pub(crate) fn list_request_of(alloc: Global, inner: Cursor) -> Result<Message, NoMemory>
    requires { (taken : List Text) × IsAccepted tables.MosReqAll taken inner }
    ensures { IfOk result (λ m. message_events m ≡ element (codes "mosReqAll") inner) }
{
    let pause = pause_of(alloc, inner)?;
    Ok(Message::MosReqAll(pause))
}

/// The mosListAll of these events. The only error is that memory runs out.
#[tactic(auto, unfolding(mos_values::specs::MessageViews::message_events))]
pub(crate) fn all_objects_of(alloc: Global, inner: Cursor) -> Result<Message, NoMemory>
    requires { (taken : List Text) × IsAccepted tables.MosListAll taken inner }
    ensures { IfOk result (λ m. message_events m ≡ element (codes "mosListAll") inner) }
{
    let objs = objects_of(alloc, inner)?;
    Ok(Message::MosListAll(objs))
}
