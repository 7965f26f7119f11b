//! A device's gateway, by its settings: its machine with its objects and its decks, its doors and its workers.
#![tactic(auto)]

mod beginning;
mod by_threads;

pub use by_threads::gate_serve_by_threads;
