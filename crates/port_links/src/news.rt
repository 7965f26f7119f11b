//! What is told of dials.
use port_session::End;

/// What came of a dial, or of the connection that it opened.
#[derive(Clone, Copy, Drop)]
pub enum News {
    /// It failed.
    Failed,
    /// The connection of this number was opened.
    Opened {
        /// the connection's number
        number: u64,
    },
    /// That connection ended.
    Ended {
        /// the connection's number
        number: u64,
        /// why it ended
        end: End,
    },
}
