//! Elements that a table does not name.

/// What becomes of an element that a record's table does not name.
#[derive(Clone, Copy)]
pub enum Others {
    /// it is kept as it was written
    Kept,
    /// it is read and dropped
    Dropped,
    /// it is an element out of place
    Refused,
}
