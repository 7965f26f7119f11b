//! The server's machine.
ghost use Rattle.std.specs.Prelude.{◌≡◌, ◌<◌, ◌≤◌};
ghost use Rattle.std.specs.Option.{option_copied};
ghost use Rattle.mos_edits.specs.Entries.{entry_count, order_now};
ghost use Rattle.server_peer.specs.Parts.{upper_of, shown_view};
ghost use Rattle.ncs_core.specs.State.{ncs_of, devices_of};

use crate::looks::Looks;
use crate::orders::Orders;
use mos_fields::Id;
use rundown_log::{Journal, Keeper};
use running_order::Order;
use script_numbers::ScriptNumbers;
use server_peer::{Peer, Upper, View};
use std::alloc::Global;
use std::marker::Model;

/// What the server keeps: the journal of the accepted edits and its keeper, each order after its entries, which entry brought the
/// script of each story, and its devices.
///
/// Each call is one step of the server. A call for a connection that isn't the current one is answered `Stale` and changes
/// nothing. Devices are numbered from 0.
#[derive(Drop)]
pub struct Ncs<K: Keeper> {
    pub(crate) keeper: K,
    pub(crate) journal: Journal,
    pub(crate) orders: Orders,
    pub(crate) peers: Vec<Peer>,
    pub(crate) looks: Looks,
    pub(crate) scripts: ScriptNumbers,
    pub(crate) stopped: bool,
}

impl<K: Keeper> Model for Ncs<K> {
    ghost use Rattle.std.specs.Prelude.{◌≤◌, length};
    ghost use Rattle.ncs_core.specs.Looks.{AreLooked};
    ghost use Rattle.ncs_core.specs.State.{NcsTables, AreOrders, states};
    ghost use Rattle.ncs_core.specs.Starting.{IsKept};
    ghost use Rattle.script_numbers.specs.Numbers.{AreNumbers};

    ghost Value = { NcsTables K };

    ghost view = { λ n. record { server = record { journal = n.journal; stopped = n.stopped; faults = K.faults n.keeper; peers = n.peers.items }; keeper = n.keeper; kept = K.kept n.keeper } };

    ghost invariant = { λ n. AreOrders n.journal n.orders × (length n.peers.items ≤ 64) × (1 ≤ length n.peers.items) × IsKept n.stopped (K.kept n.keeper) (K.certainty n.keeper) n.journal × AreLooked n.journal (states n.peers.items) n.looks × AreNumbers n.journal n.scripts };
}

impl<K: Keeper> Ncs<K> {
    // The allocator of the journal.
    pub(crate) fn allocator(&self) -> Global {
        self.journal.allocator()
    }

    /// The keeper. It takes no memory.
    pub fn keeper(&self) -> &K
        ensures keeper { result.now ≡ self.now.keeper }
        ensures kept { K.kept result.now ≡ self.now.kept }
        ensures faults { K.faults result.now ≡ self.now.server.faults }
    {
        &self.keeper
    }

    /// How many devices there are, 1 to 64. It takes no memory.
    pub fn devices(&self) -> u32
        ensures number { result ≡ devices_of self.now }
        ensures least { 1 ≤ result }
        ensures most { result ≤ 64 }
    {
        self.peers.len() as u32
    }

    /// The order of a roID after all its entries, where there is one. It takes no memory.
    pub fn order(&self, ro: &Id) -> Option<&Order>
        ensures { option_copied result ≡ order_now self.now.server.journal ro.now }
    {
        self.orders.order(ro)
    }

    /// How many entries an order has. It takes no memory.
    pub fn entries(&self, ro: &Id) -> u64
        ensures { result ≡ entry_count self.now.server.journal ro.now }
    {
        self.journal.entry_count(ro) as u64
    }

    /// The connection that the server opened to a device, and what is in flight there. It takes no memory.
    pub fn upper(&self, d: u32) -> &Upper
        requires { d < devices_of self.now }
        ensures { upper_of result.now ≡ ((ncs_of self.now).peers d).upper }
    {
        self.peers[d as usize].upper()
    }

    /// What the server takes a device to hold of an order; of the scripts that are due their number. It takes no memory.
    pub fn view(&self, d: u32, ro: &Id) -> View
        requires { d < devices_of self.now }
        ensures { result ≡ shown_view (((ncs_of self.now).peers d).views ro.now) }
    {
        self.peers[d as usize].view(ro)
    }

    /// The connection that a device opened, where it has one. It takes no memory.
    pub fn device_link(&self, d: u32) -> Option<u64>
        requires { d < devices_of self.now }
        ensures { result ≡ ((ncs_of self.now).peers d).link }
    {
        self.peers[d as usize].link()
    }
}
