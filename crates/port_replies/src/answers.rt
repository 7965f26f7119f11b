//! The mosAck that answers a message.
ghost use Rattle.std.specs.Prelude.{◌≡◌, [], IfOk, MatchResult};
ghost use Rattle.machine_answers.specs.Answers.{status_of};
ghost use Rattle.mos_machines.specs.Messages.{status_text};
ghost use Rattle.mos_values.specs.declared.mos_ack.AckStatus.TheVariants.{Ack, Nack};
ghost use Rattle.port_replies.specs.Replies.{mos_ack};

use machine_answers::Status;
use mos_fields::{NoMemory, Text, triple_ok};
use mos_values::{AckStatus, Message, MosAck, message_obj, message_rev};
use std::alloc::Global;

/// The mosAck that answers a message, with the objID and the objRev that the message has, and with this text where there was
/// memory for it. The only error is that memory runs out.
pub fn object_answer(
    alloc: Global,
    message: &Message,
    status: AckStatus,
    text: Result<Text, NoMemory>,
) -> Result<Message, NoMemory>
    ensures { IfOk result (λ m. MatchResult text (λ t. m ≡ mos_ack message.now status t) (λ _. ⊥)) }
{
    let (obj, rev, text) = triple_ok(message_obj(alloc, message), message_rev(message), text)?;
    Ok(Message::MosAck(MosAck {
        obj,
        rev: Some(rev),
        status,
        description: Some(text),
    }))
}

// The text of a status.
fn text_of(alloc: Global, status: &Status) -> Result<Text, NoMemory>
    ensures { IfOk result (λ t. t ≡ status_text (status_of status.now)) }
{
    let text = status.text(alloc)?;
    Ok(text.into_text())
}

/// The mosAck that the message was taken, with an empty description. The only error is that memory runs out.
pub fn object_taken(alloc: Global, message: &Message) -> Result<Message, NoMemory>
    ensures { IfOk result (λ m. m ≡ mos_ack message.now Ack []) }
{
    object_answer(alloc, message, AckStatus::Ack, Ok(Text::new(alloc)))
}

/// The mosAck that the message was refused, with the status's text. The only error is that memory runs out.
pub fn object_refusal(
    alloc: Global,
    message: &Message,
    status: &Status,
) -> Result<Message, NoMemory>
    ensures { IfOk result (λ m. m ≡ mos_ack message.now Nack (status_text (status_of status.now))) }
{
    object_answer(alloc, message, AckStatus::Nack, text_of(alloc, status))
}
