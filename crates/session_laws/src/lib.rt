//! Laws of the connections that an end accepted.
#![tactic(auto)]

mod laws;

pub use laws::{ended_early_is_accepted, served_is_accepted};
