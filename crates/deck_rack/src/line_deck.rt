//! A deck that writes what it is told.
ghost use Rattle.std.specs.Prelude.{◌≡◌, ◌≤◌, [], true, false, IfOk, OnOk, OnErr, Err, string_bytes};
ghost use Rattle.std.specs.Option.{option_copied};
ghost use Rattle.mos_io.specs.Counts.{counted, Rose};
ghost use Rattle.deck_rack.specs.Decks.{Answers, loaded, marked};
ghost use Rattle.deck_rack.specs.Lines.{WritesLine, arm_line as arm_line_of, disarm_line as disarm_line_of, load_line as load_line_of};
ghost use Rattle.deck_rack.specs.Memory.{row_changed, rows_of, writing_view};
ghost use Rattle.deck_rack.specs.Playlists.{playlist_of};

use crate::deck::{Deck, DeckFault};
use crate::lines::{arm_line, disarm_line, load_line};
use crate::lists::Lists;
use crate::plays::playlist;
use mos_fields::{Id, NoMemory, let_go};
use mos_io::{Sink, SinkFault};
use running_order::Order;
use std::alloc::Global;
use std::marker::Model;

/// Writes a line of UTF-8 for each call, by one write: `load RO` with ` ITEM=OBJ` for each item of the playlist, `arm RO` or
/// `disarm RO`, each ended by a line feed. It tells what it holds.
///
/// A call answers `Failed` only where its sink failed, whose count is that of the deck, and `NoMemory`, which the deck counts,
/// where its sink or its own lists found no memory.
#[derive(Drop)]
pub struct LineDeck<K> {
    sink: K,
    lists: Lists,
    wants: u64,
}

impl<K> Model for LineDeck<K> {
    ghost use Rattle.deck_rack.specs.Memory.{WritingDeck};

    ghost Value = { WritingDeck K };

    ghost view = { λ d. record { sink = d.sink; rows = d.lists; wants = d.wants } };
}

impl<K: Sink> LineDeck<K> {
    /// A deck that holds nothing and has written nothing.
    pub fn new(alloc: Global, sink: K) -> Self
        ensures { result ≡ record { sink = sink; rows = []; wants = 0 } }
    {
        LineDeck {
            sink,
            lists: Lists::new(alloc),
            wants: 0,
        }
    }

    /// What the lines are written to.
    pub fn sink(&self) -> &K
        ensures { result.now ≡ self.now.sink }
    {
        &self.sink
    }

    // Counts that a call found no memory.
    fn want(&mut self) -> Result<(), DeckFault>
        ensures fault { result ≡ Err DeckFault.NoMemory }
        ensures counts { self.new ≡ record self.old { wants = counted self.old.wants } }
    {
        self.wants = self.wants.saturating_add(1);
        Err(DeckFault::NoMemory)
    }

    // Writes a line.
    fn write(&mut self, line: &String) -> Result<(), DeckFault>
        ensures { WritesLine K.written K.faults self.old self.new self.old.rows (string_bytes line.now) result }
    {
        match self.sink.write_piece(line.as_bytes()) {
            Ok(()) => Ok(()),
            Err(SinkFault::Failed) => Err(DeckFault::Failed),
            Err(SinkFault::NoMemory) => self.want(),
        }
    }

    // Holds a playlist, and gives the line that tells of it.
    fn hold(&mut self, ro: &Id, order: Option<&Order>, mos: &Id) -> Result<String, NoMemory>
        ensures ok { OnOk result (self.new ≡ record self.old { rows = row_changed (loaded (playlist_of (option_copied order.entry) mos.now)) ro.now self.old.rows }) }
        ensures line { IfOk result (λ line. string_bytes line ≡ load_line_of ro.now (playlist_of (option_copied order.entry) mos.now)) }
        ensures err { OnErr result (self.new ≡ self.old) }
    {
        let alloc = self.lists.allocator();
        let list = playlist(alloc, order, mos)?;
        let line = load_line(alloc, ro, &list)?;
        self.lists.load(ro, list)?;
        Ok(line)
    }

    // Marks an order or takes the mark off, and gives the line that tells of it.
    fn mark(
        &mut self,
        ro: &Id,
        armed: bool,
        line: Result<String, NoMemory>,
    ) -> Result<String, NoMemory>
        ensures ok { OnOk result (self.new ≡ record self.old { rows = row_changed (marked armed) ro.now self.old.rows }) }
        ensures line { OnOk result (result ≡ line) }
        ensures err { OnErr result (self.new ≡ self.old) }
    {
        let line = line?;
        self.lists.mark(ro, armed)?;
        Ok(line)
    }
}

impl<K: Sink + Drop> Deck for LineDeck<K> {
    ghost view = { λ d. writing_view K.faults d };

    fn load(&mut self, ro: &Id, order: Option<&Order>, mos: &Id) -> Result<(), DeckFault>
        ensures answers { Answers (writing_view K.faults self.old) (writing_view K.faults self.new) (loaded (playlist_of (option_copied order.entry) mos.now)) ro.now result }
        ensures line { WritesLine K.written K.faults self.old self.new (row_changed (loaded (playlist_of (option_copied order.entry) mos.now)) ro.now self.old.rows) (load_line_of ro.now (playlist_of (option_copied order.entry) mos.now)) result }
    {
        match self.hold(ro, order, mos) {
            Ok(line) => self.write(&line),
            Err(_) => self.want(),
        }
    }

    fn arm(&mut self, ro: &Id) -> Result<(), DeckFault>
        ensures answers { Answers (writing_view K.faults self.old) (writing_view K.faults self.new) (marked true) ro.now result }
        ensures line { WritesLine K.written K.faults self.old self.new (row_changed (marked true) ro.now self.old.rows) (arm_line_of ro.now) result }
    {
        let line = arm_line(self.lists.allocator(), ro);
        match self.mark(ro, true, line) {
            Ok(line) => self.write(&line),
            Err(_) => self.want(),
        }
    }

    fn disarm(&mut self, ro: &Id) -> Result<(), DeckFault>
        ensures answers { Answers (writing_view K.faults self.old) (writing_view K.faults self.new) (marked false) ro.now result }
        ensures line { WritesLine K.written K.faults self.old self.new (row_changed (marked false) ro.now self.old.rows) (disarm_line_of ro.now) result }
    {
        let line = disarm_line(self.lists.allocator(), ro);
        match self.mark(ro, false, line) {
            Ok(line) => self.write(&line),
            Err(_) => self.want(),
        }
    }
}
