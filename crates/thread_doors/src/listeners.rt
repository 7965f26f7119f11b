//! The listeners of a server and of a gateway, where each worker has a thread of its own.

/// A server's listeners, and how many workers couldn't be started for want of a thread.
#[derive(Drop)]
pub struct ServerListeners<L: Drop> {
    /// for running order messages of the devices
    pub upper: L,
    /// for media object messages of the devices
    pub lower: L,
    /// for the editors
    pub editor: L,
    /// how many workers couldn't be started, in all calls so far; it stays at the last value of its 64 bits
    pub refused: u64,
}

/// A gateway's listeners, and how many workers couldn't be started for want of a thread.
#[derive(Drop)]
pub struct GateListeners<L: Drop> {
    /// for running order messages of the server
    pub upper: L,
    /// for media object messages of the server
    pub lower: L,
    /// how many workers couldn't be started, in all calls so far; it stays at the last value of its 64 bits
    pub refused: u64,
}
