//! How a serving call ended.
ghost use Rattle.std.specs.Prelude.{◌≡◌};
ghost use Rattle.serve_ends.specs.Ends.{end_of_door, status_of};

use port_doors::DoorEnd;

/// How a serving call ended. Where the journal couldn't be loaded, the keeper comes back.
#[derive(Drop)]
pub enum ServeEnd<K: Drop> {
    /// Each listener said that no further connection comes.
    Closed,
    /// A listener failed.
    ListenFault,
    /// A worker couldn't be started.
    NoWorker,
    /// The keeper failed when it was to load the journal.
    StoreFault { keeper: K },
    /// This entry, the first of which that is so, isn't accepted after those before it. Entries are numbered from 0.
    BadEntry { number: u64, keeper: K },
    /// Memory ran out.
    NoMemory,
}

impl<K: Drop> ServeEnd<K> {
    /// The number that a program ends with: 0 for `Closed`, 4 `ListenFault`, 5 `NoWorker`, 6 `StoreFault`, 7 `BadEntry`,
    /// 8 `NoMemory`.
    pub fn status(&self) -> u8
        ensures { result ≡ status_of self.now }
    {
        match self {
            ServeEnd::Closed => 0,
            ServeEnd::ListenFault => 4,
            ServeEnd::NoWorker => 5,
            ServeEnd::StoreFault { keeper: _ } => 6,
            ServeEnd::BadEntry {
                number: _,
                keeper: _,
            } => 7,
            ServeEnd::NoMemory => 8,
        }
    }

    /// The end of a call whose doors' loops ended so.
    pub fn of_door(end: DoorEnd) -> Self
        ensures { result ≡ end_of_door end }
    {
        match end {
            DoorEnd::Closed => ServeEnd::Closed,
            DoorEnd::ListenFault => ServeEnd::ListenFault,
            DoorEnd::NoWorker => ServeEnd::NoWorker,
            DoorEnd::NoMemory => ServeEnd::NoMemory,
        }
    }
}
