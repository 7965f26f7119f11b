//! The roAcks that answer a device.
ghost use Rattle.std.specs.Prelude.{◌≡◌, [], IfOk};
ghost use Rattle.mos_machines.specs.Messages.{Status as MachineStatus, message_ro};
ghost use Rattle.mos_machines.specs.Values.{seen};
ghost use Rattle.machine_answers.specs.Answers.{status_of};
ghost use Rattle.ncs_core.specs.Answers.{acked, other_status};

use machine_answers::{Status, acknowledgement};
use mos_fields::{Id, NoMemory, OptId, let_go};
use mos_values::{Message, RoAck};
use std::alloc::Global;

// The roAck of an order.
pub fn ack(alloc: Global, ro: &Id, status: &Status) -> Result<RoAck, NoMemory>
    ensures { IfOk result (λ a. a ≡ acked ro.now (status_of status.now)) }
{
    acknowledgement(alloc, OptId::from_id(ro.try_clone()?), status)
}

// The same with a status that is let go then.
pub fn ack_with(alloc: Global, ro: &Id, status: Status) -> Result<RoAck, NoMemory>
    ensures { IfOk result (λ a. a ≡ acked ro.now (status_of status)) }
{
    let answer = ack(alloc, ro, &status);
    let_go(status);
    answer
}

// A message that the server doesn't act on, with its roID.
fn unsupported(alloc: Global, ro: &Id) -> Result<RoAck, NoMemory>
    ensures { IfOk result (λ a. a ≡ acked ro.now MachineStatus.NotSupported) }
{
    ack_with(alloc, ro, Status::NotSupported)
}

// A roAck that the server doesn't act on, with its roID or an empty one.
fn unasked(alloc: Global, ro: &OptId) -> Result<RoAck, NoMemory>
    ensures { IfOk result (λ a. a ≡ acked ro.now MachineStatus.NotSupported) }
{
    acknowledgement(alloc, ro.try_clone()?, &Status::NotSupported)
}

// A message that has no roID.
fn unknown(alloc: Global) -> Result<RoAck, NoMemory>
    ensures { IfOk result (λ a. a ≡ acked [] MachineStatus.NotSupported) }
{
    match OptId::try_new(alloc, &[]) {
        Ok(ro) => acknowledgement(alloc, ro, &Status::NotSupported),
        Err(_) => Err(NoMemory),
    }
}

// The roAck of a message that is neither a heartbeat nor a request.
pub fn other_ack(alloc: Global, m: &Message) -> Result<RoAck, NoMemory>
    ensures { IfOk result (λ a. a ≡ acked (message_ro (seen m.now)) (other_status (seen m.now))) }
{
    match m {
        Message::RoElementStat(status) => ack_with(alloc, &status.as_ref().ro, Status::Okay),
        Message::RoCreate(body) => unsupported(alloc, &body.as_ref().header.ro),
        Message::RoReplace(body) => unsupported(alloc, &body.as_ref().header.ro),
        Message::RoDelete(ro) => unsupported(alloc, ro),
        Message::RoMetadataReplace(patch) => unsupported(alloc, &patch.as_ref().ro),
        Message::RoElementAction { ro, action: _ } => unsupported(alloc, ro),
        Message::RoReadyToAir { ro, air: _ } => unsupported(alloc, ro),
        Message::RoAck(ack) => unasked(alloc, &ack.ro),
        Message::RoReq(ro) => unsupported(alloc, ro),
        Message::RoList(body) => unsupported(alloc, &body.as_ref().header.ro),
        Message::RoStorySend(story) => unsupported(alloc, &story.as_ref().ro),
        _ => unknown(alloc),
    }
}
