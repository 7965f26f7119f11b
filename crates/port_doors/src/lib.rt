//! The doors at which connections are accepted, the workers that dial, and the two whole serving calls: a server's, and a
//! gateway's.
#![tactic(auto)]

mod accept;
mod calls;
mod copies;
mod door;
mod drivers;
mod hosts;
mod jobs;
mod lane;
mod ports;
mod run;
mod serve;

pub use calls::Peer;
pub use door::{Door, DoorEnd};
pub use ports::{GatePorts, ServerPorts};
pub use serve::{serve_gate, serve_server};
