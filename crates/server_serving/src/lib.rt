//! A newsroom system's server, by its settings: its journal, its machine, its doors and its workers.
#![tactic(auto)]

mod beginning;
mod by_threads;
mod devices;
mod starting;

pub use by_threads::ncs_serve_by_threads;
