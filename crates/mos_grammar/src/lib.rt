//! Which tokens are a record by its table, a message and a stream, and the machine that decides it token by token.
#![tactic(auto)]

mod fault;
pub mod laws;

pub use fault::Fault;
