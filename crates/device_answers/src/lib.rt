//! What a device answers to the messages of a stream: one without decks, on one connection that it accepted.
#![tactic(auto)]

mod device;
mod wide;

pub use device::{Device, close_device};
