//! The stack of open records: a message's tokens, one after another, to the events of its value.
//!
//! `mos_grammar` says which tokens are a message, what its value is, and what a token shows that doesn't fit.
#![tactic(auto)]

mod admission;
mod aiming;
mod arranging;
mod child;
mod empty;
mod fault;
mod field_name;
mod frame;
mod frames;
mod inside;
mod key_set;
mod keys;
mod mode;
mod open_field;
mod others;
mod place;
mod progress;
mod prolog;
mod role;
mod spare;
mod texts;
mod times;

pub use fault::FrameFault;
pub use frames::Frames;
pub use progress::Progress;
