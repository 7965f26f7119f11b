//! The names of elements.
ghost use Rattle.std.specs.Prelude.{◌≡◌};
ghost use Rattle.mos_events.specs.EventView.{element_text};

use crate::message_name::MessageName;
use mos_fields::Field;

/// The name of an element that is a field or a record.
#[derive(Clone, Copy, Debug, PartialEq, Eq)]
pub enum ElementName {
    /// `mos`, which every message stands in
    Mos,
    /// a message
    Message(MessageName),
    /// a field of a record
    Field(Field),
}

impl ElementName {
    /// The name in tags.
    pub fn name(self) -> &'static str
        ensures { result.now ≡ element_text self }
    {
        match self {
            ElementName::Mos => "mos",
            ElementName::Message(message) => message.name(),
            ElementName::Field(field) => field.name(),
        }
    }
}
