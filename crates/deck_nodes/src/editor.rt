//! The editors' port, at which a gateway does nothing.
ghost use Rattle.std.specs.Prelude.{◌≡◌, IfOk};
ghost use Rattle.port_replies.specs.Ports.{idle, no_order, refused as refused_of};
ghost use Rattle.port_events.specs.declared.answer.PortAnswer.TheVariants as answers;

use machine_answers::{Status, acknowledgement};
use mos_fields::NoMemory;
use mos_values::{Message, nameless};
use port_events::{PortAnswer, What};
use std::alloc::Global;

// The roAck of no order.
fn refuse(alloc: Global) -> Result<PortAnswer, NoMemory>
    ensures { IfOk result (λ a. a ≡ answers.Say no_order) }
{
    let ro = nameless(alloc)?;
    let ack = acknowledgement(alloc, ro, &Status::NotSupported)?;
    Ok(PortAnswer::Say(Message::RoAck(ack)))
}

// What answers a message: a heartbeat itself, any other the roAck of no order.
fn refused(alloc: Global, message: &Message) -> Result<PortAnswer, NoMemory>
    ensures { IfOk result (λ a. a ≡ answers.Say (refused_of no_order message.now)) }
{
    match message {
        Message::Heartbeat(time) => Ok(PortAnswer::Say(Message::Heartbeat(*time))),
        _ => refuse(alloc),
    }
}

/// What happens at the editors' port is answered so.
pub fn at_editor(alloc: Global, what: &What) -> Result<PortAnswer, NoMemory>
    ensures { IfOk result (λ a. a ≡ idle no_order what.now) }
{
    match what {
        What::Accepted | What::Dialed(_) | What::Beat => Ok(PortAnswer::Done),
        What::Heard(message) => refused(alloc, message.message()),
        What::EndedIn | What::EndedOut => Ok(PortAnswer::Taken),
        What::Next(_) => Ok(PortAnswer::Nothing),
        What::Answered(_) => Ok(PortAnswer::Unasked),
    }
}
