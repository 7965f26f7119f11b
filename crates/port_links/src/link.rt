//! Connections.
use port_events::Side;

/// A connection.
#[derive(Drop)]
pub struct Link<S: Drop, K: Drop> {
    /// its number, from one counter that all connections of a run share
    pub number: u64,
    /// the port at which it was opened
    pub side: Side,
    /// what comes on it
    pub source: S,
    /// what goes out on it
    pub sink: K,
}
