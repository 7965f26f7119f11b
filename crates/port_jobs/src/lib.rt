//! A worker's job at a port: to serve a connection that was accepted there, or to dial.
#![tactic(auto)]

mod job;
mod names;
mod serving;
mod task;

pub use job::PortJob;
pub use names::Names;
pub use task::{Task, Work};
