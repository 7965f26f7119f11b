//! The names of messages.
ghost use Rattle.std.specs.Prelude.{◌≡◌};
ghost use Rattle.mos_events.specs.EventView.{element_text, message_text};
ghost use Rattle.mos_message_reading.specs.Values.{IsMessageName};

use mos_events::{ElementName, MessageName};
use mos_fields::Field;

/// The message of this name. The element of one object, `mosObj`, is a message and a record of mosListAll.
pub(crate) fn message_name(name: ElementName) -> MessageName
    requires { IsMessageName (element_text name) }
    ensures { message_text result ≡ element_text name }
{
    match name {
        ElementName::Message(message) => message,
        ElementName::Field(Field::MosObjTag) => MessageName::MosObj,
        _ => unreachable!(),
    }
}
