//! The gateway's machine: what a device keeps of the running orders, and its steps.
//!
//! A `Gate` is seen as the tables of its state. Each call is one step of the device, by its definition in `mos_machines`.
#![tactic(auto)]

mod answers;
mod asking;
mod asks;
mod changes;
mod edits;
mod gate;
mod known;
mod listing;
mod orders;
mod reading;
mod statuses;
mod upper;

pub use asking::{Asking, Confirm};
pub use gate::Gate;
pub use known::{DeckState, Known, Phase};
