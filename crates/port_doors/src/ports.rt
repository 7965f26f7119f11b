//! The doors of a server and of a gateway.
use crate::door::Door;

/// A server's doors, and who starts its workers that dial.
#[derive(Drop)]
pub struct ServerPorts<L: Drop, W: Drop> {
    /// for running order messages of the devices
    pub upper: Door<L, W>,
    /// for media object messages of the devices
    pub lower: Door<L, W>,
    /// for the editors
    pub editor: Door<L, W>,
    /// starts the workers that dial
    pub drivers: W,
}

/// A gateway's doors, and who starts its workers that dial.
#[derive(Drop)]
pub struct GatePorts<L: Drop, W: Drop> {
    /// for running order messages of the server
    pub upper: Door<L, W>,
    /// for media object messages of the server
    pub lower: Door<L, W>,
    /// starts the workers that dial
    pub drivers: W,
}
