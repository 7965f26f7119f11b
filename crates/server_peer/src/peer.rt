//! What the server keeps for one device.
ghost use Rattle.std.specs.Prelude.{◌≡◌, [], false};
ghost use Rattle.mos_machines.specs.Messages.{is_link as is_link_of};
ghost use Rattle.mos_machines.specs.Server.{Upper as ServerUpper, no_peer, upper_link, is_busy as is_busy_of, peer_opened, peer_cut, peer_beat, peer_linked};
ghost use Rattle.mos_machines.specs.Tables.{peer_of};
ghost use Rattle.server_peer.specs.Parts.{upper_of, shown_view};

use crate::changes::Unlisting;
use crate::upper::{Upper, is_link};
use crate::view::{Seen, View};
use mos_fields::Id;
use order_table::OrderTable;
use std::alloc::Global;
use std::marker::Model;

/// What the server keeps for one device: the connection that it opened and what is in flight there, whether a heartbeat was
/// asked for, the connection that the device opened, and a view of each order.
#[derive(Drop)]
pub struct Peer {
    pub(crate) upper: Upper,
    pub(crate) note: bool,
    pub(crate) link: Option<u64>,
    pub(crate) views: OrderTable<Seen>,
}

impl Model for Peer {
    ghost use Rattle.mos_machines.specs.Tables.{PeerTables};
    ghost use Rattle.server_peer.specs.Parts.{upper_of, IsOutKnown, IsUpperNumbered};

    ghost Value = { PeerTables };

    ghost view = { λ p. record { upper = upper_of p.upper; note = p.note; link = p.link; views = p.views } };

    ghost invariant = { λ p. IsOutKnown (upper_of p.upper) p.views × IsUpperNumbered (upper_of p.upper) };
}

impl Peer {
    /// A device without connections. It takes no memory; the table of its views grows in this allocator.
    pub fn new(alloc: Global) -> Self
        ensures { peer_of result ≡ no_peer }
    {
        Peer {
            upper: Upper::Down,
            note: false,
            link: None,
            views: OrderTable::new(alloc),
        }
    }

    /// The server opened this connection, and greets on it. Nothing is known of the device's orders, and no heartbeat is
    /// asked for. It takes no memory.
    pub fn upper_opened(&mut self, link: u64)
        ensures { peer_of self.new ≡ peer_opened link (peer_of self.old) }
    {
        self.forget();
        self.upper = Upper::Greeting { link };
    }

    /// The server's connection ended. It takes no memory.
    pub fn upper_cut(&mut self)
        ensures { peer_of self.new ≡ peer_cut (peer_of self.old) }
    {
        self.forget();
    }

    // Nothing is in flight, no heartbeat is asked for, and nothing is known of the device's orders.
    fn forget(&mut self)
        ensures { self.new ≡ record { upper = ServerUpper.Down; note = false; link = self.old.link; views = [] } }
    {
        self.upper = Upper::Down;
        self.note = false;
        self.views = OrderTable::new(self.views.allocator());
    }

    /// Asks for a heartbeat, where the server's connection is open. It takes no memory.
    pub fn beat(&mut self)
        ensures { peer_of self.new ≡ peer_beat (peer_of self.old) }
    {
        self.note = self.upper.is_open() || self.note;
    }

    /// The device has this connection from now on, or none. A list that was on its way may be lost. It takes no memory.
    pub fn linked(&mut self, link: Option<u64>)
        ensures { peer_of self.new ≡ peer_linked link (peer_of self.old) }
    {
        self.link = link;
        self.views.change_all(&Unlisting);
    }

    /// Whether this is the server's connection.
    pub fn is_upper(&self, link: u64) -> bool
        ensures { result ≡ is_link_of (upper_link (peer_of self.now).upper) link }
    {
        is_link(self.upper.link(), link)
    }

    /// Whether this is the connection that the device opened.
    pub fn is_lower(&self, link: u64) -> bool
        ensures { result ≡ is_link_of (peer_of self.now).link link }
    {
        is_link(self.link, link)
    }

    /// Whether the server's connection isn't open, or an entry of this order is in flight.
    pub fn is_busy(&self, ro: &Id) -> bool
        ensures { result ≡ is_busy_of ro.now (peer_of self.now).upper }
    {
        self.upper.is_busy(ro)
    }

    /// The server's connection, and what is in flight there.
    pub fn upper(&self) -> &Upper
        ensures { upper_of result.now ≡ (peer_of self.now).upper }
    {
        &self.upper
    }

    /// The connection that the device opened.
    pub fn link(&self) -> Option<u64>
        ensures { result ≡ (peer_of self.now).link }
    {
        self.link
    }

    /// What the server takes the device to hold of an order; of the scripts that are due their number. It takes no memory.
    pub fn view(&self, ro: &Id) -> View
        ensures { result ≡ shown_view ((peer_of self.now).views ro.now) }
    {
        match self.views.find(ro) {
            Some(seen) => seen.shown(),
            None => View::Out,
        }
    }
}
