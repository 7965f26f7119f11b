//! What is known of a port.
ghost use Rattle.std.specs.Prelude.{◌≡◌, ◌<◌, ◌≤◌, true, false};

use std::sync::atomic::{AtomicBool, AtomicU64, Ordering};

/// So many connections that others opened a port has at most. Each has a thread of its own, whose stack takes two of the some
/// 65,000 pieces of memory that Linux gives a process unless it is told otherwise: three ports take no more than 24,000.
pub(crate) const MOST_CONNECTIONS: u64 = 4_000;

/// What is known of a port: how many connections it has, where it listens, and whether it ended.
#[derive(Drop)]
pub(crate) struct AtPort {
    count: AtomicU64,
    // the TCP port at which a connection is awaited; 0 for none
    listens: AtomicU64,
    is_ended: AtomicBool,
    // in which second it was said last that it takes no more
    said: AtomicU64,
}

// Whether a port with so many connections takes one more.
fn takes_more(count: u64) -> bool
    ensures yes { result ≡ true → count < 4000 }
    ensures no { result ≡ false → 4000 ≤ count }
{
    count < MOST_CONNECTIONS
}

impl AtPort {
    /// A port with no connection, at which none is awaited.
    pub(crate) fn new() -> Self {
        AtPort {
            count: AtomicU64::new(0),
            listens: AtomicU64::new(0),
            is_ended: AtomicBool::new(false),
            said: AtomicU64::new(0),
        }
    }

    /// A connection came.
    pub(crate) fn comes(&self) {
        self.count.fetch_add(1, Ordering::SeqCst);
    }

    /// One ended.
    pub(crate) fn leaves(&self) {
        self.count.fetch_sub(1, Ordering::SeqCst);
    }

    /// Whether it takes one more.
    pub(crate) fn has_room(&self) -> bool {
        takes_more(self.count.load(Ordering::SeqCst))
    }

    /// Whether it wasn't said in this second that it takes no more. It is noted as said.
    pub(crate) fn is_news(&self, second: u64) -> bool {
        self.said.swap(second, Ordering::SeqCst) != second
    }

    /// Connections are awaited at this TCP port; at 0 no more.
    pub(crate) fn listen(&self, port: u16) {
        self.listens.store(u64::from(port), Ordering::SeqCst);
    }

    /// The TCP port at which one is awaited.
    pub(crate) fn listens(&self) -> Option<u16> {
        match self.listens.load(Ordering::SeqCst) {
            0 => None,
            port => u16::try_from(port).ok(),
        }
    }

    /// It ended: no connection is awaited any more.
    pub(crate) fn end(&self) {
        self.listen(0);
        self.is_ended.store(true, Ordering::SeqCst);
    }

    /// Whether it ended since a connection couldn't be served.
    pub(crate) fn is_ended(&self) -> bool {
        self.is_ended.load(Ordering::SeqCst)
    }
}
