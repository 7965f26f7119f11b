//! Tokens.
use crate::attribute::Attribute;

/// A token of a stream.
///
/// Names are ASCII, so a code unit of a name is a character of it. What is lent of a stream as it was written is UTF-16.
#[derive(Clone, Copy)]
pub enum Token<'a> {
    /// a start tag: its name, its attributes, and the tag as it was written
    OpenTag(&'a [u16], &'a [Attribute], &'a [u16]),
    /// an empty tag: its name, its attributes, and the tag as it was written
    EmptyTag(&'a [u16], &'a [Attribute], &'a [u16]),
    /// an end tag: its name
    CloseTag(&'a [u16]),
    /// a text: as it was written, and the characters that it stands for, the same where it has no reference
    Text(&'a [u16], &'a [u16]),
    /// the rest of a raw element behind its start tag, as it was written, up to the end of its end tag
    Tail(&'a [u16]),
    /// U+FEFF before a message
    Mark,
    /// the XML declaration `<?xml ..?>`
    Declaration,
}
