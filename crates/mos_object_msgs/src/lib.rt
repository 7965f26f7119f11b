//! The messages about machines and media objects: Profiles 0 and 1 of MOS Protocol 2.8.5.
#![tactic(auto)]

mod machines;
mod messages;

pub use messages::{append_object, write_object};
