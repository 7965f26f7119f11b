//! The commands of the program `mos_replay`: what its words ask for, and the call that does it.
#![tactic(auto)]

mod help;
mod run;
mod words;

pub use help::{USAGE, about};
pub use run::mos_run;
