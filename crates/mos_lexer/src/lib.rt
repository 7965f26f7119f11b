//! How tokens are written as characters and code units, and the machine that reads a message code unit after code unit.
#![tactic(auto)]

mod kind;
pub mod laws;

pub use kind::Kind;
