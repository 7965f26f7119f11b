//! Looking at the first message of a connection, which says which device it belongs to. What was read is given again.
#![tactic(auto)]

mod finding;
mod looker;

pub use finding::{LookFault, look};
