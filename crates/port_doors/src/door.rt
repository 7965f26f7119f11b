//! Doors.
use port_jobs::Names;
use port_session::Port;
use std::sync::Arc;

/// Where connections are accepted, and who serves them.
#[derive(Drop)]
pub struct Door<L: Drop, W: Drop> {
    /// accepts the connections
    pub listener: L,
    /// starts a worker for each
    pub spawner: W,
}

/// How the accepting loops ended.
#[derive(Clone, Copy, Debug, Drop, PartialEq, Eq)]
pub enum DoorEnd {
    /// The listener said that no further connection comes; of several doors, each one's did.
    Closed,
    /// A listener failed.
    ListenFault,
    /// A worker couldn't be started.
    NoWorker,
    /// Memory ran out.
    NoMemory,
}

/// What the connections of a door are served at.
#[derive(Drop)]
pub struct DoorPort {
    /// the port; its connections have numbers of their own
    pub port: Port,
    /// the names of the devices, where a connection's messages say which it is
    pub names: Option<Arc<Names>>,
    /// how many bytes may be read on a connection
    pub budget: u64,
}
