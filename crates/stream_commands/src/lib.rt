//! Reading a stream of messages from its beginning to its end, and telling something of each: a `Teller` says what.
//! `Lister` lists them, `Counter` counts them.
//!
//! A message is told of as soon as it is whole, and is let go of then: a run holds one message and one piece of the
//! input.
#![tactic(auto)]

mod lines;
mod listing;
mod run;
mod status;
mod teller;
mod texts;

pub use listing::{Counter, Lister};
pub use run::run_stream;
pub use status::Status;
pub use teller::Teller;
