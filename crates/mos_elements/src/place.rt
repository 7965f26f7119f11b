//! Where reading stands.
use crate::fault::FrameFault;

/// What may stand in front of a message still.
#[derive(Clone, Copy)]
pub enum Stage {
    /// U+FEFF, then the XML declaration
    BeforeProlog,
    /// the XML declaration
    BehindMark,
    /// neither
    BehindDeclaration,
}

/// Where reading stands.
#[derive(Clone, Copy)]
pub enum Place {
    /// in front of a message
    Before(Stage),
    /// in a message
    InMessage,
    /// it has failed
    Failed(FrameFault),
}
