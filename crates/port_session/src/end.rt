//! Why a connection ended.
use mos_lexer::Kind;

/// Why a loop that serves a connection ended.
#[derive(Clone, Copy, Drop)]
pub enum End {
    /// The source ended between messages.
    Closed,
    /// The source ended inside a message.
    Truncated {
        /// so many bytes were read behind the last whole message
        bytes: u64,
    },
    /// The bytes are no stream of messages.
    BadMessage {
        /// so many code units of the stream stand before the place
        place: u64,
        /// what doesn't fit there
        kind: Kind,
    },
    /// A read failed.
    ReadFault,
    /// A write failed.
    WriteFault,
    /// As many bytes were read as may be.
    Budget,
    /// The hub answered that the connection isn't the current one.
    Stale,
    /// The hub answered that nothing was asked for that a message answers.
    Unasked,
    /// The pacer said that the program stops.
    Stopped,
    /// Memory ran out.
    NoMemory,
}
