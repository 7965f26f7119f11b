//! How far in the journal nothing is due to each device.
ghost use Rattle.std.specs.Prelude.{◌≡◌, ◌<◌, ◌≤◌, ℕ, length, get_or, true};
ghost use Rattle.mos_edits.specs.Texts.{set_number};
ghost use Rattle.mos_machines.specs.Messages.{Message as Said};
ghost use Rattle.mos_machines.specs.Server.{peer_answered, peer_settled};
ghost use Rattle.server_peer.specs.Dues.{IsIdleBefore};
ghost use Rattle.ncs_core.specs.Looks.{AreLooked};
ghost use Rattle.ncs_core.specs.State.{states};

use rundown_log::Journal;
use server_peer::Peer;
use std::marker::Model;

/// A place in the journal for each device, from 0. The server keeps it where nothing before it is due to the device.
#[derive(Drop)]
pub struct Looks {
    places: [usize; 64],
}

impl Model for Looks {
    ghost use Rattle.std.specs.Prelude.{List, ℕ};

    ghost Value = { List ℕ };

    ghost view = { λ l. l.places };
}

impl Looks {
    /// The begin of the journal for each.
    pub fn new() -> Self
        ensures { (d : ℕ) → get_or result d 0 ≡ 0 }
    {
        let places = [0; 64];
        Looks { places }
    }

    // The place of a device.
    fn get(&self, d: usize) -> usize
        requires { d < 64 }
        ensures { result ≡ get_or self.now d 0 }
    {
        self.places[d]
    }

    // Another place for a device.
    fn put(&mut self, d: usize, place: usize)
        requires { d < 64 }
        ensures { (e : ℕ) → get_or self.new e 0 ≡ set_number (λ e. get_or self.old e 0) d place e }
    {
        self.places[d] = place;
    }
}

/// Goes on to the first entry that is due to a device, or to the end of the journal, and says where that is.
pub fn look_on(looks: &mut Looks, peers: &[Peer], journal: &Journal, d: usize) -> usize
    requires within { d < length peers.now }
    requires few { length peers.now ≤ 64 }
    requires looked { AreLooked journal.now (states peers.now) looks.old }
    ensures looked { AreLooked journal.now (states peers.now) looks.new }
    ensures idle { IsIdleBefore result journal.now (states peers.now d).views }
{
    let place = peers[d].look(journal, looks.get(d));
    looks.put(d, place);
    place
}

/// Goes back to where nothing is due once a device answered.
pub fn look_if_answered(looks: &mut Looks, peers: &[Peer], journal: &Journal, d: usize)
    requires within { d < length peers.now }
    requires few { length peers.now ≤ 64 }
    requires looked { AreLooked journal.now (states peers.now) looks.old }
    ensures { (m : Said) → AreLooked journal.now (set_number (states peers.now) d (peer_answered journal.now (states peers.now d) m).0) looks.new }
{
    let place = peers[d].look_if_answered(journal, looks.get(d));
    looks.put(d, place);
}

/// Goes back to where nothing is due once a heartbeat of a device was heard.
pub fn look_if_settled(looks: &mut Looks, peers: &[Peer], journal: &Journal, d: usize)
    requires within { d < length peers.now }
    requires few { length peers.now ≤ 64 }
    requires looked { AreLooked journal.now (states peers.now) looks.old }
    ensures { AreLooked journal.now (set_number (states peers.now) d (peer_settled journal.now true (states peers.now d))) looks.new }
{
    let place = peers[d].look_if_settled(journal, looks.get(d));
    looks.put(d, place);
}
