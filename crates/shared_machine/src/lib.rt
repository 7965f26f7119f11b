//! A machine that threads share, one call at a time, with one legal history of all calls.
#![tactic(auto)]

mod bells;
mod entry;
mod hub;
mod machine;
mod meeting;
mod pass;
mod rule;
mod seat_view;
mod slot_value;
mod steps;
mod table;
mod ticket;
mod turn;
mod turn_state;

pub use entry::Entry;
pub use hub::Hub;
pub use machine::{Machine, NoMemory, StepRelation};
pub use pass::Pass;
