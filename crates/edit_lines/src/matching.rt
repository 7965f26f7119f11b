//! Whether an answer is for a message.
ghost use Rattle.std.specs.Prelude.{◌≡◌, Some};
ghost use Rattle.mos_values.specs.Names.{message_ro};
ghost use Rattle.edit_lines.specs.Answers.{is_for as is_for_of, is_same_id as is_same_id_of, is_same_order as is_same_order_of, speaks_of as speaks_of_order};

use mos_fields::{OptId, Text};
use mos_values::{Envelope, Message};

// Whether one roID is the other, or one of them is empty.
fn is_same_order(asked: &Text, ro: &Text) -> bool
    ensures { result ≡ is_same_order_of asked.now ro.now }
{
    asked.is_empty() || ro.is_empty() || *asked == *ro
}

// Whether a message speaks of the order of this roID, or of none.
fn is_of(asked: &Message, ro: &Text) -> bool
    ensures { result ≡ is_same_order_of (message_ro asked.now) ro.now }
{
    match asked {
        Message::RoElementStat(status) => is_same_order(status.as_ref().ro.text(), ro),
        Message::RoCreate(body) => is_same_order(body.as_ref().header.ro.text(), ro),
        Message::RoReplace(body) => is_same_order(body.as_ref().header.ro.text(), ro),
        Message::RoDelete(id) => is_same_order(id.text(), ro),
        Message::RoMetadataReplace(patch) => is_same_order(patch.as_ref().ro.text(), ro),
        Message::RoElementAction { ro: id, action: _ } => is_same_order(id.text(), ro),
        Message::RoReadyToAir { ro: id, air: _ } => is_same_order(id.text(), ro),
        Message::RoAck(answer) => is_same_order(answer.ro.text(), ro),
        Message::RoReq(id) => is_same_order(id.text(), ro),
        Message::RoList(body) => is_same_order(body.as_ref().header.ro.text(), ro),
        Message::RoStorySend(story) => is_same_order(story.as_ref().ro.text(), ro),
        _ => true,
    }
}

// Whether an answer speaks of the order of which the message speaks, or one of the two speaks of none.
fn speaks_of(asked: &Message, answer: &Message) -> bool
    ensures { result ≡ speaks_of_order asked.now answer.now }
{
    match answer {
        Message::RoAck(ack) => is_of(asked, ack.ro.text()),
        Message::RoList(body) => is_of(asked, body.as_ref().header.ro.text()),
        _ => true,
    }
}

// Whether one ID is the other.
fn is_same(asked: &OptId, answer: &OptId) -> bool
    ensures { result ≡ is_same_id_of (Some asked.now) (Some answer.now) }
{
    *asked == *answer
}

// Whether one messageID is the other, or one of them is lacking.
fn is_same_id(asked: &Option<OptId>, answer: &Option<OptId>) -> bool
    ensures { result ≡ is_same_id_of asked.now answer.now }
{
    match asked {
        Some(asked) => match answer {
            Some(answer) => is_same(asked, answer),
            None => true,
        },
        None => true,
    }
}

/// Whether an answer is for a message: where both have a messageID, it is the same, and where both have a roID of their own and
/// the answer is a roAck or a roList, that is the same too.
#[tactic(auto, unfolding(crate::specs::Answers::is_for))]
pub fn is_for(asked: &Envelope, answer: &Envelope) -> bool
    ensures { result ≡ is_for_of asked.now answer.now }
{
    is_same_id(&asked.message_id, &answer.message_id) && speaks_of(&asked.message, &answer.message)
}
