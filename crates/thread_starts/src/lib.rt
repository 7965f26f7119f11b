//! Jobs, each on a thread of its own.
#![tactic(auto)]

mod counting;
mod spawner;
mod starts;

pub use spawner::StartSpawner;
pub use starts::start_thread;
