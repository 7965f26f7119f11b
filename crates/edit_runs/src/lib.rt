//! A run of an editor: lines of a source, the message of each sent over a connection, and what is told of each answer.
//!
//! `run_edits` sends one message at a time, and reads its answer before it goes on. It holds one piece of the input, one line,
//! one message and one answer. `send` and `hear` are the two steps of it, for a run whose messages come from elsewhere.
#![tactic(auto)]

mod asking;
mod counts;
mod halt;
mod hearing;
mod run;
mod status;
mod turns;
mod writing;

pub use counts::Counts;
pub use halt::Halt;
pub use hearing::hear;
pub use run::run_edits;
pub use status::EditStatus;
pub use writing::send;
