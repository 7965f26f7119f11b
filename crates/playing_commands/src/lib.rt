//! The commands that play a script on a stage: `replay` and `make`.
//!
//! Each ends with a status. `Done` and `Refused` say what was read, told and written, `ReadFault` and `WriteFault` come only
//! where the source's or the sink's count of faults rose; `Usage` never comes.
#![tactic(auto)]

mod playing;

pub use playing::{make, replay};
