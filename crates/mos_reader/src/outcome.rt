//! What reading on comes to.
use mos_lexer::Kind;

/// What reading on comes to. Places count the code units that are held.
#[derive(Clone, Copy)]
pub enum Outcome {
    /// the message goes on
    ReadsOn,
    /// a message is complete, the `<mos` of which begins here: its value waits to be taken
    Completes(usize),
    /// the stream is rejected at this place
    Rejects(usize, Kind),
}
