//! A stream of bytes, to the events of its messages.
//!
//! Two bytes are a code unit, the high one first. What is handed out is what the definition of reading code unit after
//! code unit says, in whichever pieces the bytes come.
#![tactic(auto)]

mod decoder;
mod units;

pub use decoder::EventDecoder;
