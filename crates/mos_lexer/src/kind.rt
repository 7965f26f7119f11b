//! Why a stream is rejected.
use mos_fields::Field;

/// Why a stream of messages is rejected.
#[derive(Clone, Copy, Debug, PartialEq, Eq)]
pub enum Kind {
    /// A code unit that belongs to no character.
    BadUnit,
    /// A character that XML 1.0 forbids.
    BadChar,
    /// An `&` that begins no reference.
    Entity,
    /// A tag of a field that may stand once and was there already, or an attribute given twice.
    Twice(Field),
    /// A tag of a field that was not there, behind a later field of its record.
    Order(Field),
    /// A tag of a later field or the record's end tag where this field is lacking, or a start tag without its attribute.
    Missing(Field),
    /// A text that is not of the field's type, an attribute's value, or an ID that a record beside has already.
    Value(Field),
    /// A token that may not stand there, or characters that begin no token.
    Tag,
    /// The 8,388,609th code unit after the end of the message before.
    TooLong,
    /// The input ended inside a message.
    End,
}
