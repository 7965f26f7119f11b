//! What a tag shows by the fields that a record has seen, and what its attributes show.
//!
//! A record's table is a list of columns. How often each column's field was seen stands in a list of counts beside it, so
//! what a tag shows costs no more than the length of the table.
#![tactic(auto)]

mod counts;
mod messages;
mod names;
mod noting;

pub use counts::{find_end_fault, find_tag};
pub use messages::{find_message, find_named, message_table};
pub use names::is_name;
pub use noting::{note, restart_counts, start_counts};
