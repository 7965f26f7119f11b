//! The fields of a table.
use crate::table::Table;
use mos_fields::{Field, Form};

/// What an element holds.
#[derive(Clone, Copy)]
pub enum Shape {
    /// a text of this type
    Leaf(Form),
    /// anything; the element is kept as it was written
    Raw,
    /// the fields of a record
    Record(Table),
    /// the fields of a message's record, by the name of the element
    Message,
}

/// How often a field stands in its record.
#[derive(Clone, Copy)]
pub enum Often {
    /// once
    One,
    /// once or not at all
    Optional,
    /// any number of times
    Any,
    /// once or more
    Many,
    /// so many times; a further one is an element out of place
    Count(u8),
}

/// A field of a table, and how it stands there.
#[derive(Clone, Copy)]
pub struct Column {
    /// the field
    pub field: Field,
    /// what its element holds
    pub shape: Shape,
    /// how often it stands there
    pub often: Often,
}
