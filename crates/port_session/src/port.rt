//! The port of a connection.
use mos_fields::Id;
use port_events::Side;

/// A connection at a port, and the names of its two ends.
#[derive(Drop)]
pub struct Port {
    /// the port
    pub side: Side,
    /// the device, from 0, where the port has one
    pub device: Option<u32>,
    /// the number of the connection
    pub link: u64,
    /// mosID, the device
    pub mos: Id,
    /// ncsID, the newsroom computer system
    pub ncs: Id,
}
