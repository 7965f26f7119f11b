//! A running order: a header, and stories with distinct storyIDs, each with items of distinct itemIDs.
//!
//! Stories and items are found by their IDs in tables, so that a look-up doesn't walk the order. So are the scripts of stories.
#![tactic(auto)]

mod header;
mod id_table;
mod order;
mod scripts_left;
mod shared_script;
mod sizes;
mod splice;
mod story_entry;
mod story_table;

pub use id_table::IdTable;
pub use order::Order;
