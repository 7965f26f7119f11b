//! Actions on the stories and items of running orders from their events.
#![tactic(auto)]

mod actions;
mod identifiers;
mod parts;
mod sources;
mod targets;

pub use actions::action_of;
