//! The label of a message, behind which its answer is told.
ghost use Rattle.std.specs.Prelude.{◌≡◌, ◌++◌, IfOk, OnOk};
ghost use Rattle.message_runs.specs.Labels.{label_text, name_text, other_name, ro_text, table_name as table_name_of};

use edit_lines::{push_bytes, push_text};
use mos_events::MessageName;
use mos_fields::{NoMemory, Text, let_go};
use mos_values::{Message, message_ro};
use std::alloc::Global;

// The name of a message's element, where the tables have it.
fn table_name(message: &Message) -> Option<MessageName>
    ensures { result ≡ table_name_of message.now }
{
    match message {
        Message::Heartbeat(_) => Some(MessageName::Heartbeat),
        Message::ReqMachInfo => Some(MessageName::ReqMachInfo),
        Message::ListMachInfo(_) => Some(MessageName::ListMachInfo),
        Message::MosAck(_) => Some(MessageName::MosAck),
        Message::MosObj(_) => Some(MessageName::MosObj),
        Message::MosReqObj(_) => Some(MessageName::MosReqObj),
        Message::MosReqAll(_) => Some(MessageName::MosReqAll),
        Message::MosListAll(_) => Some(MessageName::MosListAll),
        Message::RoCreate(_) => Some(MessageName::RoCreate),
        Message::RoReplace(_) => Some(MessageName::RoReplace),
        Message::RoList(_) => Some(MessageName::RoList),
        Message::RoMetadataReplace(_) => Some(MessageName::RoMetadataReplace),
        Message::RoDelete(_) => Some(MessageName::RoDelete),
        Message::RoReq(_) => Some(MessageName::RoReq),
        Message::RoReqAll => Some(MessageName::RoReqAll),
        Message::RoListAll(_) => Some(MessageName::RoListAll),
        Message::RoElementStat(_) => Some(MessageName::RoElementStat),
        Message::RoElementAction { ro: _, action: _ } => Some(MessageName::RoElementAction),
        Message::RoReadyToAir { ro: _, air: _ } => Some(MessageName::RoReadyToAir),
        Message::RoAck(_) => Some(MessageName::RoAck),
        Message::RoStorySend(_) => Some(MessageName::RoStorySend),
        Message::Other { name: _, raw: _ } => None,
    }
}

// Appends the name of a message's element that the tables don't have; of any other nothing.
fn push_other_name(alloc: Global, out: &mut Vec<u8>, message: &Message) -> Result<(), NoMemory>
    ensures { OnOk result (out.new.items ≡ out.old.items ++ other_name message.now) }
{
    match message {
        Message::Other { name, raw: _ } => push_text(alloc, out, name.text()),
        _ => Ok(()),
    }
}

// Appends the name of a message's element.
fn push_name(alloc: Global, out: &mut Vec<u8>, message: &Message) -> Result<(), NoMemory>
    ensures { OnOk result (out.new.items ≡ out.old.items ++ name_text message.now) }
{
    match table_name(message) {
        Some(name) => push_bytes(out, name.name().as_bytes()),
        None => push_other_name(alloc, out, message),
    }
}

// Appends a roID behind a space; nothing where it is empty.
fn push_ro(alloc: Global, out: &mut Vec<u8>, ro: &Text) -> Result<(), NoMemory>
    ensures { OnOk result (out.new.items ≡ out.old.items ++ ro_text ro.now) }
{
    if ro.is_empty() {
        Ok(())
    } else {
        push_bytes(out, b" ")?;
        push_text(alloc, out, ro)
    }
}

// The name of a message's element, and this roID.
fn labelled(alloc: Global, message: &Message, ro: &Text) -> Result<Vec<u8>, NoMemory>
    ensures { IfOk result (λ label. label.items ≡ name_text message.now ++ ro_text ro.now) }
{
    let mut out = Vec::new(alloc);
    push_name(alloc, &mut out, message)?;
    push_ro(alloc, &mut out, ro)?;
    Ok(out)
}

/// The label of a message: the name of its element, and behind a space its roID, as `roCreate EVENING`. A message that has no
/// roID, or an empty one, has its name alone, as `heartbeat`. Tabs and ends of lines in a roID stand as spaces. The only error
/// is that memory runs out.
pub fn label_of(alloc: Global, message: &Message) -> Result<Vec<u8>, NoMemory>
    ensures { IfOk result (λ label. label.items ≡ label_text message.now) }
{
    let ro = message_ro(alloc, message)?;
    let label = labelled(alloc, message, ro.text());
    let_go(ro);
    label
}
