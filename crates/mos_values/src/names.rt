//! What messages name: the order, and the object, as fields of their own.
ghost use Rattle.std.specs.Prelude.{◌≡◌, [], IfOk};
ghost use Rattle.mos_values.specs.Names.{message_obj as message_obj_of, message_rev as message_rev_of, message_ro as message_ro_of, number_or_none, text_or_none};

use crate::message::Message;
use mos_fields::{Id, NoMemory, OptId, Rev};
use std::alloc::Global;

/// An ID, as one that may be empty, in memory of its own. The only error is that memory runs out.
pub fn named(id: &Id) -> Result<OptId, NoMemory>
    ensures { IfOk result (λ t. t ≡ id.now) }
{
    Ok(OptId::from_id(id.try_clone()?))
}

/// No ID. The only error is that memory runs out.
pub fn nameless(alloc: Global) -> Result<OptId, NoMemory>
    ensures { IfOk result (λ id. id ≡ []) }
{
    match OptId::try_new(alloc, &[]) {
        Ok(id) => Ok(id),
        Err(_) => Err(NoMemory),
    }
}

// An ID, or none.
fn named_or_none(alloc: Global, id: &Option<OptId>) -> Result<OptId, NoMemory>
    ensures { IfOk result (λ t. t ≡ text_or_none id.now) }
{
    match id {
        Some(id) => id.try_clone(),
        None => nameless(alloc),
    }
}

/// The roID that a message has as a field of its own, or an empty one. The only error is that memory runs out.
pub fn message_ro(alloc: Global, message: &Message) -> Result<OptId, NoMemory>
    ensures { IfOk result (λ id. id ≡ message_ro_of message.now) }
{
    match message {
        Message::RoElementStat(status) => named(&status.as_ref().ro),
        Message::RoCreate(body) => named(&body.as_ref().header.ro),
        Message::RoReplace(body) => named(&body.as_ref().header.ro),
        Message::RoDelete(ro) => named(ro),
        Message::RoMetadataReplace(patch) => named(&patch.as_ref().ro),
        Message::RoElementAction { ro, action: _ } => named(ro),
        Message::RoReadyToAir { ro, air: _ } => named(ro),
        Message::RoAck(answer) => answer.ro.try_clone(),
        Message::RoReq(ro) => named(ro),
        Message::RoList(body) => named(&body.as_ref().header.ro),
        Message::RoStorySend(story) => named(&story.as_ref().ro),
        _ => nameless(alloc),
    }
}

/// The objID that a message has as a field of its own, or an empty one. The only error is that memory runs out.
pub fn message_obj(alloc: Global, message: &Message) -> Result<OptId, NoMemory>
    ensures { IfOk result (λ id. id ≡ message_obj_of message.now) }
{
    match message {
        Message::MosObj(obj) => named(&obj.as_ref().id),
        Message::MosReqObj(id) => named(id),
        Message::MosAck(answer) => answer.obj.try_clone(),
        Message::RoElementStat(status) => named_or_none(alloc, &status.as_ref().obj),
        _ => nameless(alloc),
    }
}

/// The first revision, 0. The only error is that memory runs out.
pub fn first_revision() -> Result<Rev, NoMemory>
    ensures { IfOk result (λ rev. rev ≡ 0) }
{
    match Rev::try_new(&['0']) {
        Ok(rev) => Ok(rev),
        Err(_) => Err(NoMemory),
    }
}

// A revision, or the first.
fn revision_or_first(rev: &Option<Rev>) -> Result<Rev, NoMemory>
    ensures { IfOk result (λ r. r ≡ number_or_none rev.now) }
{
    match rev {
        Some(rev) => Ok(*rev),
        None => first_revision(),
    }
}

/// The objRev that a message has as a field of its own, or 0. The only error is that memory runs out.
pub fn message_rev(message: &Message) -> Result<Rev, NoMemory>
    ensures { IfOk result (λ rev. rev ≡ message_rev_of message.now) }
{
    match message {
        Message::MosObj(obj) => revision_or_first(&obj.as_ref().rev),
        Message::MosAck(answer) => revision_or_first(&answer.rev),
        _ => first_revision(),
    }
}
