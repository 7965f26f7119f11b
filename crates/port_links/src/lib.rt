//! Where connections come from, and who does the work on them: the traits, and their forms in memory for tests. Each
//! counts its faults, and a call fails only where that count rises.
#![tactic(auto)]

mod dialer;
mod job;
mod link;
mod listed;
mod listener;
mod mem_dialer;
mod mem_listener;
mod mem_spawner;
mod news;
mod place;
mod spawner;

pub use dialer::Dialer;
pub use job::Job;
pub use link::Link;
pub use listener::Listener;
pub use mem_dialer::MemDialer;
pub use mem_listener::MemListener;
pub use mem_spawner::MemSpawner;
pub use news::News;
pub use place::Place;
pub use spawner::Spawner;
