//! What an input looks like that isn't a stream of messages, by its first bytes: so a rejection can say beside its place and
//! kind what the input may be.
#![tactic(auto)]

mod look;
mod noted;

pub use look::{Look, has_return, look_of};
pub use noted::Noted;
