//! What a message of a device, and an accepted edit, do to its views.
ghost use Rattle.std.specs.Prelude.{◌≡◌, ◌&&◌, true, false, OnOk, IsSome};
ghost use Rattle.mos_edits.specs.Texts.{set_order};
ghost use Rattle.mos_edits.specs.Entries.{entry_count};
ghost use Rattle.mos_machines.specs.Server.{View as ServerView, is_open, peer_settled, settled, view_given};
ghost use Rattle.mos_machines.specs.Tables.{peer_of, map_rows};
ghost use Rattle.order_table.specs.Rows.{find_row};
ghost use Rattle.server_peer.specs.Parts.{AreBelow, IsRoomFor};

use crate::after::After;
use crate::changes::Settling;
use crate::peer::Peer;
use crate::views::{know, set_listed, step};
use mos_fields::{Id, NoMemory};
use rundown_log::Journal;

impl Peer {
    /// A message of the device was heard: where it was a heartbeat, the device took each list that was on its way, else it
    /// may not have. It takes no memory.
    pub fn settle(&mut self, journal: &Journal, beat: bool)
        ensures rows { self.new ≡ record self.old { views = map_rows (settled journal.now beat) self.old.views } }
        ensures step { peer_of self.new ≡ peer_settled journal.now beat (peer_of self.old) }
    {
        self.views.change_all(&Settling { journal, beat });
    }

    /// Makes room for a view of this order. Nothing else changes, also without memory for it.
    pub fn reserve(&mut self, ro: &Id) -> Result<(), NoMemory>
        ensures there { OnOk result (IsSome (find_row ro.now self.new.views)) }
        ensures same { peer_of self.new ≡ peer_of self.old }
    {
        know(&mut self.views, ro)
    }

    /// A request of an order was heard, and all its entries are on their way as a list, behind which the scripts of these are
    /// due. It takes no memory.
    pub fn listed(&mut self, journal: &Journal, ro: &Id, scripts: Vec<u64>)
        requires there { IsSome (find_row ro.now self.old.views) }
        requires below { AreBelow (entry_count journal.now ro.now) scripts.items }
        ensures { peer_of self.new ≡ record (peer_of self.old) { views = set_order (λ q. settled journal.now false q ((peer_of self.old).views q)) ro.now (ServerView.Listed (entry_count journal.now ro.now) scripts.items) } }
    {
        self.settle(journal, false);
        set_listed(&mut self.views, ro, journal.entry_count(ro) as u64, scripts);
    }

    /// Makes room for the view that an accepted edit of this order may leave, which may be a whole-order edit. Nothing
    /// else changes, also without memory for it.
    pub fn reserve_given(&mut self, ro: &Id, is_whole: bool) -> Result<(), NoMemory>
        ensures there { OnOk result (IsRoomFor is_whole ro.now self.new) }
        ensures same { peer_of self.new ≡ peer_of self.old }
    {
        if self.is_given(is_whole) {
            know(&mut self.views, ro)
        } else {
            Ok(())
        }
    }

    /// An edit of this order was accepted, which is its entry `n`: a whole-order edit is sent to a device of which nothing
    /// is known, where the server's connection is open. It takes no memory.
    pub fn given(&mut self, ro: &Id, is_whole: bool, n: u64)
        requires { IsRoomFor is_whole ro.now self.old }
        ensures { peer_of self.new ≡ record (peer_of self.old) { views = set_order (peer_of self.old).views ro.now (view_given (is_open (peer_of self.old).upper && is_whole) n ((peer_of self.old).views ro.now)) } }
    {
        if self.is_given(is_whole) {
            self.give(ro, n);
        }
    }

    // Whether an edit that may be a whole-order one is given to the device.
    fn is_given(&self, is_whole: bool) -> bool
        ensures { result ≡ (is_open (peer_of self.now).upper && is_whole) }
    {
        self.upper.is_open() && is_whole
    }

    // A whole-order edit was accepted, which is entry `n` of this order, while the server's connection is open.
    fn give(&mut self, ro: &Id, n: u64)
        requires { IsSome (find_row ro.now self.old.views) }
        ensures { peer_of self.new ≡ record (peer_of self.old) { views = set_order (peer_of self.old).views ro.now (view_given true n ((peer_of self.old).views ro.now)) } }
    {
        step(&mut self.views, ro, After::Given { n });
    }
}
