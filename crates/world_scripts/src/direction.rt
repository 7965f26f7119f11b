//! Directions of a connection.

/// A direction of a connection between the server and a device.
#[derive(Clone, Copy, Debug, PartialEq, Eq)]
pub enum Direction {
    /// what is written for the server
    ToServer,
    /// what is written for the device
    ToDevice,
}
