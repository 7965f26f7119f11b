//! Events.
use crate::element_name::ElementName;
use crate::known_attribute::KnownAttribute;
use mos_fields::{Field, Text};

/// A part of a record's value, as the canonical encoding writes it at once.
#[derive(Drop)]
pub enum Event {
    /// a field with a text in the canonical form of its type, and the attribute that its table names
    Leaf {
        name: ElementName,
        attribute: Option<KnownAttribute>,
        text: Text,
    },
    /// a raw element as it was written, and the field that it is; `Kept` where its table does not name it
    Raw {
        field: Field,
        text: Text,
    },
    /// the start of a record, and the attribute that its table names
    Opens {
        name: ElementName,
        attribute: Option<KnownAttribute>,
    },
    /// the end of a record
    Closes {
        name: ElementName,
    },
}
