//! Why no script was read.

/// Why no script was read.
#[derive(Clone, Copy, Debug, Drop, PartialEq, Eq)]
pub enum ScriptFault {
    /// The line of this number, which counts from 1, is the first that is none.
    Refused { line: u64 },
    /// A read failed.
    ReadFault,
    /// Memory ran out.
    NoMemory,
}
