//! What the innermost record is in.
ghost use Rattle.std.specs.Prelude.{◌≡◌, true};
ghost use Rattle.mos_fields.specs.Names.{is_name};

use crate::child::Part;
use crate::open_field::OpenField;
use mos_events::Events;
use mos_fields::{Field, Text};

/// A raw element behind its start tag: its name, the field that it is, and the tag as it was written.
#[derive(Drop)]
pub struct RawStart {
    pub name: Vec<u16>,
    pub field: Field,
    pub tag: Text,
    pub ghost named: { is_name name.items ≡ true },
}

/// What the innermost record is in, or the value of a message behind its end.
#[derive(Drop)]
pub enum Mode {
    /// between its elements
    Between,
    /// in a field whose text may still come
    InField(OpenField),
    /// in a field whose text came, with what it adds to the value
    BehindText(OpenField, Part),
    /// in a raw element
    InRaw(RawStart),
    /// in none: the message is whole, with this value
    Ended(Events),
}
