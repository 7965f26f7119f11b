//! The lower port, at which the machine does nothing.
ghost use Rattle.std.specs.Prelude.{◌≡◌, IfOk};
ghost use Rattle.port_replies.specs.Ports.{idle, no_object, refused as refused_of};
ghost use Rattle.port_events.specs.declared.answer.PortAnswer.TheVariants as answers;

use machine_answers::Status;
use mos_fields::NoMemory;
use mos_values::{AckStatus, Message, MosAck, first_revision, nameless};
use port_events::{PortAnswer, What};
use std::alloc::Global;

// The mosAck of no object.
fn refuse_object(alloc: Global) -> Result<PortAnswer, NoMemory>
    ensures { IfOk result (λ a. a ≡ answers.Say no_object) }
{
    let obj = nameless(alloc)?;
    let rev = first_revision()?;
    let text = Status::NotSupported.text(alloc)?;
    Ok(PortAnswer::Say(Message::MosAck(MosAck {
        obj,
        rev: Some(rev),
        status: AckStatus::Nack,
        description: Some(text.into_text()),
    })))
}

// What answers a message: a heartbeat itself, any other the mosAck of no object.
fn refused(alloc: Global, message: &Message) -> Result<PortAnswer, NoMemory>
    ensures { IfOk result (λ a. a ≡ answers.Say (refused_of no_object message.now)) }
{
    match message {
        Message::Heartbeat(time) => Ok(PortAnswer::Say(Message::Heartbeat(*time))),
        _ => refuse_object(alloc),
    }
}

// What happens there is answered so.
pub fn idle_answer(alloc: Global, what: &What) -> Result<PortAnswer, NoMemory>
    ensures { IfOk result (λ a. a ≡ idle no_object what.now) }
{
    match what {
        What::Accepted | What::Dialed(_) | What::Beat => Ok(PortAnswer::Done),
        What::Heard(message) => refused(alloc, message.message()),
        What::EndedIn | What::EndedOut => Ok(PortAnswer::Taken),
        What::Next(_) => Ok(PortAnswer::Nothing),
        What::Answered(_) => Ok(PortAnswer::Unasked),
    }
}
