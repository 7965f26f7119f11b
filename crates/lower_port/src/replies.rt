//! What is answered to a message at either lower port.
ghost use Rattle.std.specs.Prelude.{◌≡◌, [], IfOk};
ghost use Rattle.std.specs.Option.{option_copied};
ghost use Rattle.mos_edits.specs.KeyedLists.ActFault.{Missing};
ghost use Rattle.mos_machines.specs.Messages.{status_text};
ghost use Rattle.mos_machines.specs.Messages.Status.{Faulty};
ghost use Rattle.mos_values.specs.declared.message.Message.TheVariants as carried;
ghost use Rattle.mos_values.specs.declared.mos_ack.AckStatus.TheVariants.{Ack, Nack};
ghost use Rattle.port_events.specs.declared.answer.PortAnswer.TheVariants as answers;
ghost use Rattle.port_replies.specs.Replies.{mos_ack};
ghost use Rattle.lower_port.specs.Gateways.{object_told};
ghost use Rattle.lower_port.specs.Servers.{not_supported as not_supported_of, take_answer};

use machine_answers::Status;
use mos_fields::{Id, MosTime, NoMemory, OptId, let_go};
use mos_values::{Boxed, MachInfo, Message, MosObj, named};
use port_events::PortAnswer;
use port_replies::{object_refusal, object_taken};
use std::alloc::Global;

// What an end says of itself.
pub fn told_info(alloc: Global, info: &MachInfo) -> Result<PortAnswer, NoMemory>
    ensures { IfOk result (λ a. a ≡ answers.Say (carried.ListMachInfo info.now)) }
{
    let info = Boxed::new(alloc, info.try_clone()?)?;
    Ok(PortAnswer::Say(Message::ListMachInfo(info)))
}

// A heartbeat is answered by itself.
pub fn heartbeat(time: &MosTime) -> PortAnswer
    ensures { result ≡ answers.Say (carried.Heartbeat time.now) }
{
    PortAnswer::Say(Message::Heartbeat(*time))
}

// The mosAck that nothing is done with such a message.
pub fn not_supported(alloc: Global, message: &Message) -> Result<PortAnswer, NoMemory>
    ensures { IfOk result (λ a. a ≡ answers.Say (not_supported_of message.now)) }
{
    Ok(PortAnswer::Say(object_refusal(alloc, message, &Status::NotSupported)?))
}

// The mosAck that a message was taken.
pub fn acknowledged(alloc: Global, message: &Message) -> Result<PortAnswer, NoMemory>
    ensures { IfOk result (λ a. a ≡ answers.Say (mos_ack message.now Ack [])) }
{
    Ok(PortAnswer::Say(object_taken(alloc, message)?))
}

// The mosAck that a message was taken, or that there was no room for all of its objects.
pub fn take_told(alloc: Global, message: &Message, is_taken: bool) -> Result<PortAnswer, NoMemory>
    ensures { IfOk result (λ a. a ≡ answers.Say (take_answer message.now is_taken)) }
{
    if is_taken {
        acknowledged(alloc, message)
    } else {
        Ok(PortAnswer::Say(object_refusal(alloc, message, &Status::Full)?))
    }
}

// The mosAck that there is no such object.
fn missing(alloc: Global, message: &Message, id: OptId) -> Result<PortAnswer, NoMemory>
    ensures { IfOk result (λ a. a ≡ answers.Say (mos_ack message.now Nack (status_text (Faulty (Missing id))))) }
{
    let status = Status::Missing(id);
    let answer = object_refusal(alloc, message, &status);
    let_go(status);
    Ok(PortAnswer::Say(answer?))
}

// The object that this message, a request of it, asks for; or that there is none.
pub fn told_object(
    alloc: Global,
    message: &Message,
    id: &Id,
    object: Option<&MosObj>,
) -> Result<PortAnswer, NoMemory>
    requires { message.now ≡ carried.MosReqObj id.now }
    ensures { IfOk result (λ a. a ≡ answers.Say (object_told id.now (option_copied object.entry))) }
{
    match object {
        Some(object) => {
            let object = Boxed::new(alloc, object.try_clone()?)?;
            Ok(PortAnswer::Say(Message::MosObj(object)))
        }
        None => missing(alloc, message, named(id)?),
    }
}
