//! What a token that does not fit shows.
use mos_fields::Field;

/// What a token shows where it does not fit behind the tokens before it.
#[derive(Clone, Copy)]
pub enum Fault {
    /// a tag of a field that may stand once and was there already, or an attribute given twice
    Twice(Field),
    /// a tag of a field that was not there, behind a later field of its table
    Order(Field),
    /// a tag of a later field or the record's end tag where this field is lacking, or a start tag without its attribute
    Missing(Field),
    /// a text that is not of the field's type, an attribute's value, or a key that a record beside has already
    Value(Field),
    /// any other token that does not fit
    Tag,
}
