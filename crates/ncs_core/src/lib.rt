//! The server's machine: what the newsroom's server keeps of the running orders and of its devices, and its steps.
//!
//! An `Ncs` is seen as the tables of its state. Each call is one step of the server, by its definition in `mos_machines`.
#![tactic(auto)]

mod accepting;
mod commands;
mod connections;
mod fault;
mod former;
mod giving;
mod hearing;
mod keeping;
mod limits;
mod listing;
mod looks;
mod ncs;
mod orders;
mod reading;
mod starting;

pub use fault::{CommandFault, StartCause, StartFault};
pub use ncs::Ncs;
pub use server_peer::{ServerOut, Upper, View};
