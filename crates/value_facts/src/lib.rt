//! What holds of every envelope in memory: its texts are in the canonical forms of their fields, and its stories and items
//! have IDs of their own.
#![tactic(auto)]

pub mod encodings;
pub mod envelopes;
mod messages;
mod orders;
mod texts;
