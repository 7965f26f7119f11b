//! Playing scripts on a stage, and writing what came of it.
#![tactic(auto)]

mod commands;
mod counts;
mod laws;
mod lines;
mod playing;
mod state;

pub use commands::{Ending, make, replay};
pub use laws::honest_stages_write_the_run;
