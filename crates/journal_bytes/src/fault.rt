//! Why no more of a journal is read.

/// Why no more of a journal is read.
#[derive(Clone, Copy, Debug, PartialEq, Eq)]
pub enum JournalFault {
    /// The bytes are rejected, or a message carries no edit.
    Damaged,
    /// Memory ran out.
    NoMemory,
}
