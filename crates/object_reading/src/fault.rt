//! Why the objects of a stream aren't read.
use mos_lexer::Kind;

/// Why the objects of a stream aren't read: the first cause in the stream.
#[derive(Clone, Copy, Debug, Drop, PartialEq, Eq)]
pub enum ObjectsFault {
    /// The stream is rejected, or ends inside a message.
    Refused {
        /// so many code units of the stream stand before the place
        place: u64,
        /// what doesn't fit there
        kind: Kind,
    },
    /// A message isn't mosObj.
    NotObject {
        /// so many messages stand before it
        number: u64,
    },
    /// The table doesn't take an object: the canonical mosListAll element of all would pass 8,000,000 code units.
    Full {
        /// so many messages stand before that of the object
        number: u64,
        /// the element would have so many code units, 2^64 - 1 where that is smaller
        units: u64,
    },
    /// The source failed.
    ReadFault,
    /// There was no memory.
    NoMemory,
}
