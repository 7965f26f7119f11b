//! Why nothing more is read of a stream.
use mos_lexer::Kind;

/// Why nothing more is read of a stream of bytes.
#[derive(Clone, Copy, Drop)]
pub enum DecodeFault {
    /// The stream is rejected.
    Refused {
        /// so many code units of the stream stand before the place
        place: usize,
        /// what doesn't fit there
        kind: Kind,
    },
    /// There was no memory to read on.
    NoMemory,
}
