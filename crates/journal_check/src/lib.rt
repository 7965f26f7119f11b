//! What a server would find in a journal's bytes at its start. Nothing is changed.
#![tactic(auto)]

mod checking;
mod counting;
mod keeper;

pub use checking::{JournalFound, check_journal};
