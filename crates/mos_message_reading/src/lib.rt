//! Whole messages from their events.
//!
//! `envelope_of` takes the events that a reader of streams hands out of one message, and gives the message as a value.
#![tactic(auto)]

mod answers;
mod attributes;
mod envelopes;
mod laws;
mod machines;
mod messages;
mod names;
mod orders;
mod others;
mod requests;

pub use envelopes::envelope_of;
pub use laws::{encoded_message, read_message};
pub use messages::{message_of, read_object, read_order};
