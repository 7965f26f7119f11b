//! The commands that read a stream of messages: `take`, `show` and `check`.
//!
//! Each ends with a status. `Done` and `Refused` say what was read and written, `ReadFault` and `WriteFault` come only where
//! the source's or the sink's count of faults rose, and say what was written before; `Usage` never comes.
#![tactic(auto)]

mod reading;

pub use reading::{check, show, take};
