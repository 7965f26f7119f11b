//! The parts of a record's value, in memory.
use crate::cursor::Cursor;
use mos_events::{ElementName, KnownAttribute};
use mos_fields::Text;
use mos_values::Sequence;

/// A text of a field.
#[derive(Drop)]
pub struct LeafText {
    /// the attribute that its table names
    pub attribute: Option<KnownAttribute>,
    /// the text, in the canonical form of its type
    pub text: Text,
}

/// A record inside another.
#[derive(Drop)]
pub struct Nested {
    /// the attribute that its table names
    pub attribute: Option<KnownAttribute>,
    /// the events between its start and its end
    pub inner: Cursor,
}

/// What a column of a table holds in one record.
#[derive(Drop)]
pub enum Slot {
    /// nothing
    Absent,
    /// a text
    Leaf(LeafText),
    /// texts
    Leaves(Sequence<LeafText>),
    /// a raw element as it was written
    Raw(Text),
    /// raw elements as they were written
    Raws(Sequence<Text>),
    /// a record
    Record(Nested),
    /// records
    Records(Sequence<Nested>),
    /// a message's element, with its name
    Message(ElementName, Nested),
}
