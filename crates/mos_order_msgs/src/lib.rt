//! The messages about running orders: Profiles 2 and 4 of MOS Protocol 2.8.5.
#![tactic(auto)]

mod action;
mod messages;
mod records;

pub use messages::{append_order, write_order};
