//! The orders that a listing tells.
ghost use Rattle.std.specs.Prelude.{◌≡◌, ◌<◌, ◌||◌, ◌&&◌, List, ℕ, OnOk, IfOk};
ghost use Rattle.mos_edits.specs.Texts.{same_id, has_id};
ghost use Rattle.mos_edits.specs.Entries.{headers as headers_of};
ghost use Rattle.mos_machines.specs.Tables.{row_ids, peer_of};
ghost use Rattle.ncs_core.specs.Listed.{has_entry, is_seen, is_viewed, IsListOf};
ghost use Rattle.ncs_core.specs.State.{ncs_of, devices_of};

use crate::ncs::Ncs;
use crate::orders::headers_in;
use mos_fields::{Id, NoMemory};
use mos_values::Headers;
use order_table::OrderTable;
use rundown_log::{Journal, Keeper};
use server_peer::{Peer, View};
use std::alloc::Global;

/// Adds a row for each order that has an entry.
fn add_entered(table: &mut OrderTable<()>, journal: &Journal) -> Result<(), NoMemory>
    ensures { OnOk result ((r : List ℕ) → has_id r (row_ids table.new) ≡ (has_id r (row_ids table.old) || has_entry journal.now r)) }
{
    let mut place = 0;
    'entries: while place < journal.len() {
        table.put(journal.at(place).ro(), ())?;
        place += 1;
    }
    Ok(())
}

/// Adds a row for an order, where the device is taken to hold something of it.
fn add_view(table: &mut OrderTable<()>, peer: &Peer, ro: &Id) -> Result<(), NoMemory>
    ensures { OnOk result ((r : List ℕ) → has_id r (row_ids table.new) ≡ (has_id r (row_ids table.old) || (same_id r ro.now && is_seen ((peer_of peer.now).views r)))) }
{
    match peer.view(ro) {
        View::Out => Ok(()),
        _ => table.put(ro, ()),
    }
}

/// Adds a row for each order of which the device is taken to hold something.
fn add_seen(table: &mut OrderTable<()>, peer: &Peer) -> Result<(), NoMemory>
    ensures { OnOk result ((r : List ℕ) → has_id r (row_ids table.new) ≡ (has_id r (row_ids table.old) || is_seen ((peer_of peer.now).views r))) }
{
    let mut place = 0;
    'views: while place < peer.known() {
        add_view(table, peer, peer.id_at(place))?;
        place += 1;
    }
    Ok(())
}

/// The roIDs of the rows.
fn ids_in(alloc: Global, rows: &[(Id, ())]) -> Result<Vec<Id>, NoMemory>
    ensures { IfOk result (λ ids. ids.items ≡ row_ids rows.now) }
{
    let mut ids = Vec::new(alloc);
    'rows: for row in rows {
        ids.push(row.0.try_clone()?)?;
    }
    Ok(ids)
}

/// The roIDs of the orders that have an entry.
fn entered_in(alloc: Global, journal: &Journal) -> Result<Vec<Id>, NoMemory>
    ensures { IfOk result (λ ids. IsListOf (has_entry journal.now) ids.items) }
{
    let mut table = OrderTable::new(alloc);
    add_entered(&mut table, journal)?;
    table.has_ascending_ids();
    ids_in(alloc, table.rows())
}

/// The roIDs of the orders that have an entry, and of those of which the device is taken to hold something.
fn viewed_in(alloc: Global, journal: &Journal, peer: &Peer) -> Result<Vec<Id>, NoMemory>
    ensures { IfOk result (λ ids. IsListOf (is_viewed journal.now (peer_of peer.now)) ids.items) }
{
    let mut table = OrderTable::new(alloc);
    add_entered(&mut table, journal)?;
    add_seen(&mut table, peer)?;
    table.has_ascending_ids();
    ids_in(alloc, table.rows())
}

impl<K: Keeper> Ncs<K> {
    /// The headers of the orders that are there, by roID, as a list of all orders tells them. Each order is looked at once, and
    /// the journal isn't. The only error is that memory runs out.
    pub fn headers(&self) -> Result<Headers, NoMemory>
        ensures { IfOk result (λ hs. hs ≡ headers_of self.now.server.journal) }
    {
        self.orders.has_ascending_ids();
        headers_in(self.allocator(), self.orders.rows())
    }

    /// The roIDs of the orders that have an entry, ascending, none twice. The only error is that memory runs out.
    pub fn entered_ids(&self) -> Result<Vec<Id>, NoMemory>
        ensures { IfOk result (λ ids. IsListOf (has_entry self.now.server.journal) ids.items) }
    {
        entered_in(self.allocator(), &self.journal)
    }

    /// The roIDs whose view of a device is told in a listing: of each order that has an entry, and of each with a view other
    /// than `Out`; ascending, none twice. The only error is that memory runs out.
    pub fn viewed_ids(&self, d: u32) -> Result<Vec<Id>, NoMemory>
        requires { d < devices_of self.now }
        ensures { IfOk result (λ ids. IsListOf (is_viewed self.now.server.journal ((ncs_of self.now).peers d)) ids.items) }
    {
        viewed_in(self.allocator(), &self.journal, &self.peers[d as usize])
    }
}
