//! A deck in memory.
ghost use Rattle.std.specs.Prelude.{◌≡◌, ◌↔◌, [], true, false, Err, IsTrue, OnOk, OnErr};
ghost use Rattle.std.specs.Option.{option_copied};
ghost use Rattle.mos_io.specs.Counts.{counted};
ghost use Rattle.mos_io.specs.Memory.{is_listed as is_listed_in};
ghost use Rattle.deck_rack.specs.Decks.{Answers, loaded, marked};
ghost use Rattle.deck_rack.specs.Memory.{IsMemoryAnswer, memory_view, row_changed, rows_of};
ghost use Rattle.deck_rack.specs.Playlists.{playlist_of};

use crate::deck::{Deck, DeckFault};
use crate::lists::Lists;
use crate::plays::{PlayItem, playlist};
use mos_fields::{Id, NoMemory};
use running_order::Order;
use std::alloc::Global;
use std::marker::Model;

/// Keeps what it is told in memory, and fails at chosen calls. It tells what it holds.
#[derive(Drop)]
pub struct MemDeck {
    lists: Lists,
    fails: Vec<u64>,
    call: u64,
    faults: u64,
    wants: u64,
}

impl Model for MemDeck {
    ghost use Rattle.deck_rack.specs.Memory.{MemoryDeck};

    ghost Value = { MemoryDeck };

    ghost view = { λ d. record { rows = d.lists; fails = d.fails.items; call = d.call; faults = d.faults; wants = d.wants } };
}

impl MemDeck {
    /// A deck that holds nothing. Call number k answers `Failed` exactly where k is in `fails`: all calls are counted, of
    /// whatever kind, from 0, and the count stays at 2^64 - 1.
    pub fn new(alloc: Global, fails: Vec<u64>) -> Self
        ensures { result ≡ record { rows = []; fails = fails.items; call = 0; faults = 0; wants = 0 } }
    {
        MemDeck {
            lists: Lists::new(alloc),
            fails,
            call: 0,
            faults: 0,
            wants: 0,
        }
    }

    /// The playlist of an order.
    pub fn list(&self, ro: &Id) -> &[PlayItem]
        ensures { result.now ≡ (rows_of self.now.rows ro.now).list }
    {
        self.lists.list(ro)
    }

    /// Whether the deck is armed for an order.
    pub fn is_armed(&self, ro: &Id) -> bool
        ensures { result ≡ (rows_of self.now.rows ro.now).armed }
    {
        self.lists.is_armed(ro)
    }

    // Counts a call, and says whether it is one of those that fail.
    fn fails_now(&mut self) -> bool
        ensures fails { result ≡ is_listed_in self.old.call self.old.fails }
        ensures counts { self.new ≡ record self.old { call = counted self.old.call } }
    {
        let number = self.call;
        self.call = number.saturating_add(1);
        self.fails.contains(&number)
    }

    // Counts that a call failed.
    fn fail(&mut self) -> Result<(), DeckFault>
        ensures fault { result ≡ Err DeckFault.Failed }
        ensures counts { self.new ≡ record self.old { faults = counted self.old.faults } }
    {
        self.faults = self.faults.saturating_add(1);
        Err(DeckFault::Failed)
    }

    // Counts that a call found no memory.
    fn want(&mut self) -> Result<(), DeckFault>
        ensures fault { result ≡ Err DeckFault.NoMemory }
        ensures counts { self.new ≡ record self.old { wants = counted self.old.wants } }
    {
        self.wants = self.wants.saturating_add(1);
        Err(DeckFault::NoMemory)
    }

    fn put_list(&mut self, ro: &Id, order: Option<&Order>, mos: &Id) -> Result<(), NoMemory>
        ensures ok { OnOk result (self.new ≡ record self.old { rows = row_changed (loaded (playlist_of (option_copied order.entry) mos.now)) ro.now self.old.rows }) }
        ensures err { OnErr result (self.new ≡ self.old) }
    {
        let list = playlist(self.lists.allocator(), order, mos)?;
        self.lists.load(ro, list)
    }

    fn put_mark(&mut self, ro: &Id, armed: bool) -> Result<(), NoMemory>
        ensures ok { OnOk result (self.new ≡ record self.old { rows = row_changed (marked armed) ro.now self.old.rows }) }
        ensures err { OnErr result (self.new ≡ self.old) }
    {
        self.lists.mark(ro, armed)
    }

    // Makes the playlist of an order that of `ro`, where the call isn't one of those that fail.
    fn hold(&mut self, ro: &Id, order: Option<&Order>, mos: &Id) -> Result<(), DeckFault>
        ensures { IsMemoryAnswer self.old self.new (loaded (playlist_of (option_copied order.entry) mos.now)) ro.now result }
    {
        if self.fails_now() {
            return self.fail();
        }
        match self.put_list(ro, order, mos) {
            Ok(()) => Ok(()),
            Err(_) => self.want(),
        }
    }

    // Marks an order or takes the mark off, where the call isn't one of those that fail.
    fn mark(&mut self, ro: &Id, armed: bool) -> Result<(), DeckFault>
        ensures { IsMemoryAnswer self.old self.new (marked armed) ro.now result }
    {
        if self.fails_now() {
            return self.fail();
        }
        match self.put_mark(ro, armed) {
            Ok(()) => Ok(()),
            Err(_) => self.want(),
        }
    }
}

impl Deck for MemDeck {
    ghost view = { λ d. memory_view d };

    fn load(&mut self, ro: &Id, order: Option<&Order>, mos: &Id) -> Result<(), DeckFault>
        ensures answers { Answers (memory_view self.old) (memory_view self.new) (loaded (playlist_of (option_copied order.entry) mos.now)) ro.now result }
        ensures memory { IsMemoryAnswer self.old self.new (loaded (playlist_of (option_copied order.entry) mos.now)) ro.now result }
    {
        self.hold(ro, order, mos)
    }

    fn arm(&mut self, ro: &Id) -> Result<(), DeckFault>
        ensures answers { Answers (memory_view self.old) (memory_view self.new) (marked true) ro.now result }
        ensures memory { IsMemoryAnswer self.old self.new (marked true) ro.now result }
    {
        self.mark(ro, true)
    }

    fn disarm(&mut self, ro: &Id) -> Result<(), DeckFault>
        ensures answers { Answers (memory_view self.old) (memory_view self.new) (marked false) ro.now result }
        ensures memory { IsMemoryAnswer self.old self.new (marked false) ro.now result }
    {
        self.mark(ro, false)
    }
}
