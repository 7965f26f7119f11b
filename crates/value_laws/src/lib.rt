//! Laws of the values of messages: which values write which events, and are read back. A law is the clause of a function
//! that does nothing.
#![tactic(auto)]

pub mod encodings;
pub mod envelopes;
pub mod laws;
pub mod ranges;
