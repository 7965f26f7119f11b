//! The machine that the server runs behind a hub: the server with the objects of its devices.
//!
//! It goes round the machine of `port_machines`, and answers at the lower ports besides. A step that finds no memory leaves all
//! as it was, and may be tried again.
#![tactic(auto)]

mod ncs_node;
mod server_ports;

pub use ncs_node::NcsNode;
