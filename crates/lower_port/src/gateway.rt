//! The lower port of a gateway.
ghost use Rattle.std.specs.Prelude.{◌≡◌, [], IfOk, OnOk, OnErr};
ghost use Rattle.port_events.specs.declared.answer.PortAnswer.TheVariants as answers;
ghost use Rattle.lower_port.specs.Connections.{all_due, with_due};
ghost use Rattle.lower_port.specs.Gateways.{gate_heard, gate_lower};
ghost use Rattle.port_replies.specs.Replies.{mos_ack};
ghost use Rattle.mos_values.specs.declared.mos_ack.AckStatus.TheVariants.{Ack};

use crate::connection::OwnConnection;
use crate::replies::{acknowledged, heartbeat, not_supported, told_info, told_object};
use mos_fields::{NoMemory, Samples};
use mos_values::{MachInfo, Message};
use object_table::ObjectTable;
use port_events::{PortAnswer, What};
use std::alloc::Global;

// All objects were requested: they are due from then on. The answer is made before that.
fn requested(
    alloc: Global,
    own: &mut OwnConnection,
    message: &Message,
    pause: Samples,
) -> Result<PortAnswer, NoMemory>
    ensures answer { IfOk result (λ a. a ≡ answers.Say (mos_ack message.now Ack [])) }
    ensures step { OnOk result (own.new ≡ with_due (all_due pause) own.old) }
    ensures err { OnErr result (own.new ≡ own.old) }
{
    let answer = acknowledged(alloc, message)?;
    own.request_all(pause);
    Ok(answer)
}

// What is answered to a message. Without memory all stays as it was.
fn hear(
    alloc: Global,
    info: &MachInfo,
    objects: &ObjectTable,
    own: &mut OwnConnection,
    message: &Message,
) -> Result<PortAnswer, NoMemory>
    ensures answer { IfOk result (λ a. a ≡ answers.Say (gate_heard info.now objects.now own.old message.now).0) }
    ensures step { OnOk result (own.new ≡ (gate_heard info.now objects.now own.old message.now).1) }
    ensures err { OnErr result (own.new ≡ own.old) }
{
    match message {
        Message::MosReqObj(id) => told_object(alloc, message, id, objects.get(id)),
        Message::MosReqAll(pause) => requested(alloc, own, message, *pause),
        Message::ReqMachInfo => told_info(alloc, info),
        Message::Heartbeat(time) => Ok(heartbeat(time)),
        _ => not_supported(alloc, message),
    }
}

/// What an event at the lower port of a gateway with these objects is answered, where this is what the gateway says of
/// itself, and this the connection that it opened.
///
/// The only error is that memory runs out; the connection is then as it was.
pub fn gateway_port(
    alloc: Global,
    info: &MachInfo,
    objects: &ObjectTable,
    own: &mut OwnConnection,
    link: u64,
    what: &What,
) -> Result<PortAnswer, NoMemory>
    ensures answer { IfOk result (λ a. a ≡ (gate_lower info.now objects.now link what.now own.old).0) }
    ensures step { OnOk result (own.new ≡ (gate_lower info.now objects.now link what.now own.old).1) }
    ensures err { OnErr result (own.new ≡ own.old) }
{
    match what {
        What::Accepted => Ok(PortAnswer::Done),
        What::Heard(message) => hear(alloc, info, objects, own, message.message()),
        What::EndedIn => Ok(PortAnswer::Taken),
        What::Dialed(_) => Ok(own.dialed(link)),
        What::Next(now) => own.next(alloc, link, now, objects),
        What::Answered(message) => Ok(own.answered(link, message.message())),
        What::Beat => Ok(own.beat(link)),
        What::EndedOut => Ok(own.ended(link)),
    }
}
