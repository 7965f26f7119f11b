//! The server's machine as a machine that threads can share by a hub.
//!
//! Each event at a port is one step of the machine, or is answered at once; `port_events` says which. A step that finds no
//! memory leaves the state as it was, and may be tried again.
#![tactic(auto)]

mod device_port;
mod editor_port;
mod faults;
mod idle;
mod replies;
mod saying;
mod server;

pub use server::ServerMachine;
