//! The messages that carry edits.
ghost use Rattle.std.specs.Prelude.{◌≡◌, IfOk};
ghost use Rattle.mos_edits.specs.Carried.{edit_in as edit_in_of, edit_message as edit_message_of};

use crate::edit::Edit;
use mos_fields::{NoMemory, let_go};
use mos_values::Message;

/// The message that carries an edit: the IDs and the fields of an action are copied, whole orders and patches of headers are
/// shared. The only error is that memory runs out.
pub fn edit_message(edit: &Edit) -> Result<Message, NoMemory>
    ensures { IfOk result (λ m. m ≡ edit_message_of edit.now) }
{
    Ok(match edit {
        Edit::Create(body) => Message::RoCreate(body.try_clone()?),
        Edit::Replace(body) => Message::RoReplace(body.try_clone()?),
        Edit::Delete(ro) => Message::RoDelete(ro.try_clone()?),
        Edit::Metadata(patch) => Message::RoMetadataReplace(patch.try_clone()?),
        Edit::Act { ro, action } => Message::RoElementAction {
            ro: ro.try_clone()?,
            action: action.try_clone()?,
        },
        Edit::Air { ro, air } => Message::RoReadyToAir {
            ro: ro.try_clone()?,
            air: *air,
        },
        Edit::Script(script) => Message::RoStorySend(script.try_clone()?),
    })
}

/// The message that carries an edit, which is taken over: nothing is copied.
pub fn message_of_edit(edit: Edit) -> Message
    ensures { result ≡ edit_message_of edit }
{
    match edit {
        Edit::Create(body) => Message::RoCreate(body),
        Edit::Replace(body) => Message::RoReplace(body),
        Edit::Delete(ro) => Message::RoDelete(ro),
        Edit::Metadata(patch) => Message::RoMetadataReplace(patch),
        Edit::Act { ro, action } => Message::RoElementAction { ro, action },
        Edit::Air { ro, air } => Message::RoReadyToAir { ro, air },
        Edit::Script(script) => Message::RoStorySend(script),
    }
}

/// The edit that a message carries, `None` where it carries none: the IDs and the fields of an action are copied, whole orders
/// and patches of headers are shared. The only error is that memory runs out.
pub fn edit_in(message: &Message) -> Result<Option<Edit>, NoMemory>
    ensures { IfOk result (λ edit. edit ≡ edit_in_of message.now) }
{
    Ok(match message {
        Message::RoCreate(body) => Some(Edit::Create(body.try_clone()?)),
        Message::RoReplace(body) => Some(Edit::Replace(body.try_clone()?)),
        Message::RoDelete(ro) => Some(Edit::Delete(ro.try_clone()?)),
        Message::RoMetadataReplace(patch) => Some(Edit::Metadata(patch.try_clone()?)),
        Message::RoElementAction { ro, action } => Some(Edit::Act {
            ro: ro.try_clone()?,
            action: action.try_clone()?,
        }),
        Message::RoReadyToAir { ro, air } => Some(Edit::Air {
            ro: ro.try_clone()?,
            air: *air,
        }),
        Message::RoStorySend(script) => Some(Edit::Script(script.try_clone()?)),
        _ => None,
    })
}

/// The edit that a message carries, which is taken over, `None` where it carries none: nothing is copied.
pub fn edit_of_message(message: Message) -> Option<Edit>
    ensures { result ≡ edit_in_of message }
{
    match message {
        Message::RoCreate(body) => Some(Edit::Create(body)),
        Message::RoReplace(body) => Some(Edit::Replace(body)),
        Message::RoDelete(ro) => Some(Edit::Delete(ro)),
        Message::RoMetadataReplace(patch) => Some(Edit::Metadata(patch)),
        Message::RoElementAction { ro, action } => Some(Edit::Act { ro, action }),
        Message::RoReadyToAir { ro, air } => Some(Edit::Air { ro, air }),
        Message::RoStorySend(script) => Some(Edit::Script(script)),
        other => {
            let_go(other);
            None
        }
    }
}
