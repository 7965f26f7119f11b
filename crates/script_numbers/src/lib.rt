//! The numbers of the entries whose scripts stand on the stories of each order.
//!
//! A table of them is seen as its rows, by roID and then by storyID. So what an order's scripts are is known without a walk over
//! the journal.
#![tactic(auto)]

mod laws;
mod numbers;
mod orders;
mod stories;

pub use laws::{numbers_are_entries, numbers_stand_once};
pub use numbers::ScriptNumbers;
