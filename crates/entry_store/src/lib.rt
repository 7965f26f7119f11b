//! Entries with the keeper that acknowledged them: what a gateway keeps, so that a restart loses nothing.
#![tactic(auto)]

mod in_memory;
mod store;

pub use store::{EntryStore, LoadFault};
