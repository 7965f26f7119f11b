//! What reading a stream comes to.
use mos_events::Events;
use mos_lexer::Kind;

/// A message that was read.
#[derive(Drop)]
pub struct Found {
    /// where its `<mos` begins: so many code units of the stream stand before it
    pub began: usize,
    /// its value
    pub value: Events,
}

/// Why a stream is read no further.
#[derive(Clone, Copy, Drop)]
pub enum ReadFault {
    /// it is rejected, so many code units behind its beginning
    Rejected(usize, Kind),
    /// there was no memory to read on
    NoMemory,
}
