//! The connection that the server opens to a device.
ghost use Rattle.std.specs.Prelude.{◌≡◌};
ghost use Rattle.mos_machines.specs.Messages.{is_link as is_link_of};
ghost use Rattle.mos_machines.specs.Server.{is_open as is_open_of, is_busy as is_busy_of, upper_link};
ghost use Rattle.server_peer.specs.Parts.{out_of, upper_of, is_flight_of};

use mos_fields::Id;
use order_table::is_same;

/// What is in flight to a device.
#[derive(Drop)]
pub enum ServerOut {
    /// Nothing.
    Idle,
    /// Entry `k` of an order, from 0.
    Edit { ro: Id, k: u64 },
    /// The READY before entry `m` of an order, sent again.
    Again { ro: Id, m: u64 },
    /// The script of entry `k` of an order, sent again behind a list of `m` entries.
    Script { ro: Id, k: u64, m: u64 },
    /// A heartbeat.
    Beat,
}

/// The connection that the server opened to a device.
#[derive(Drop)]
pub enum Upper {
    /// There is none.
    Down,
    /// It was opened; a heartbeat awaits its answer.
    Greeting { link: u64 },
    /// The device answered the heartbeat.
    Open { link: u64, out: ServerOut },
}

// Whether a connection is the current one.
pub fn is_link(current: Option<u64>, link: u64) -> bool
    ensures { result ≡ is_link_of current link }
{
    match current {
        Some(number) => number == link,
        None => false,
    }
}

impl ServerOut {
    // Whether an entry of this order is in flight.
    fn is_of(&self, ro: &Id) -> bool
        ensures { result ≡ is_flight_of ro.now (out_of self.now) }
    {
        match self {
            ServerOut::Idle => false,
            ServerOut::Edit { ro: sent, k: _ } => is_same(ro, sent),
            ServerOut::Again { ro: sent, m: _ } => is_same(ro, sent),
            ServerOut::Script {
                ro: sent,
                k: _,
                m: _,
            } => is_same(ro, sent),
            ServerOut::Beat => false,
        }
    }
}

impl Upper {
    /// The number of the connection, where there is one.
    pub fn link(&self) -> Option<u64>
        ensures { result ≡ upper_link (upper_of self.now) }
    {
        match self {
            Upper::Down => None,
            Upper::Greeting { link } => Some(*link),
            Upper::Open { link, out: _ } => Some(*link),
        }
    }

    /// Whether the device answered the heartbeat.
    pub fn is_open(&self) -> bool
        ensures { result ≡ is_open_of (upper_of self.now) }
    {
        match self {
            Upper::Open { link: _, out: _ } => true,
            _ => false,
        }
    }

    /// Whether the connection isn't open, or an entry of this order is in flight.
    pub fn is_busy(&self, ro: &Id) -> bool
        ensures { result ≡ is_busy_of ro.now (upper_of self.now) }
    {
        match self {
            Upper::Down => true,
            Upper::Greeting { link: _ } => true,
            Upper::Open { link: _, out } => out.is_of(ro),
        }
    }
}
