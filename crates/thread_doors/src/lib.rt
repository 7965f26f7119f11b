//! The two whole serving calls with a thread for each worker, which say on standard error why connections ended.
#![tactic(auto)]

mod by_threads;
mod listeners;
mod told;

pub use by_threads::{serve_gate_by_threads, serve_server_by_threads};
pub use listeners::{GateListeners, ServerListeners};
