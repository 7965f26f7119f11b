//! The server's journal: entries, the journal in memory, and the keepers that entries are written to.
//!
//! A journal is seen as the list of its entries. Entry `k` of an order is found without walking it.
#![tactic(auto)]

mod entry;
mod held;
mod journal;
mod keeper;
mod mem_keeper;
mod places;

pub use entry::{Entry, edit_ro};
pub use journal::Journal;
pub use keeper::{Entries, KeepFault, Keeper};
pub use mem_keeper::MemKeeper;
