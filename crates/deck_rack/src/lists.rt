//! The lists that a deck holds.
ghost use Rattle.std.specs.Prelude.{◌≡◌, [], IfOk, OnOk, OnErr, IsSome, None};
ghost use Rattle.mos_machines.specs.Tables.{put_row};
ghost use Rattle.order_table.specs.Rows.{find_row};
ghost use Rattle.deck_rack.specs.Decks.{Row, loaded, marked};
ghost use Rattle.deck_rack.specs.Memory.{row_changed, rows_of};

use crate::plays::PlayItem;
use mos_fields::{Id, NoMemory};
use order_table::OrderTable;
use std::alloc::Global;
use std::marker::Model;

/// What is held of one order: a playlist, and whether the deck is armed for it.
#[derive(Drop)]
pub struct Held {
    list: Vec<PlayItem>,
    armed: bool,
}

impl Model for Held {
    ghost use Rattle.deck_rack.specs.Decks.{Row};

    ghost Value = { Row };

    ghost view = { λ h. record { list = h.list.items; armed = h.armed } };
}

impl Held {
    fn new(list: Vec<PlayItem>, armed: bool) -> Self
        ensures { result ≡ record { list = list.items; armed = armed } }
    {
        Held { list, armed }
    }

    fn mark(&mut self, armed: bool)
        ensures { self.new ≡ marked armed self.old }
    {
        self.armed = armed;
    }

    fn list(&self) -> &[PlayItem]
        ensures { result.now ≡ self.now.list }
    {
        &self.list
    }

    fn is_armed(&self) -> bool
        ensures { result ≡ self.now.armed }
    {
        self.armed
    }
}

/// What is held of each order. Contracts see the rows.
#[derive(Drop)]
pub struct Lists {
    rows: OrderTable<Held>,
}

impl Model for Lists {
    ghost use Rattle.std.specs.Prelude.{List};
    ghost use Rattle.mos_edits.specs.Texts.{Text};
    ghost use Rattle.deck_rack.specs.Decks.{Row};

    ghost Value = { List (Text × Row) };

    ghost view = { λ l. l.rows };
}

impl Lists {
    /// Nothing of any order. It takes no memory; the lists grow in this allocator.
    pub fn new(alloc: Global) -> Self
        ensures { result ≡ [] }
    {
        Lists {
            rows: OrderTable::new(alloc),
        }
    }

    /// The allocator of the lists.
    pub fn allocator(&self) -> Global {
        self.rows.allocator()
    }

    /// The playlist of an order.
    pub fn list(&self, ro: &Id) -> &[PlayItem]
        ensures { result.now ≡ (rows_of self.now ro.now).list }
    {
        match self.rows.find(ro) {
            Some(held) => held.list(),
            None => &[],
        }
    }

    /// Whether the deck is armed for an order.
    pub fn is_armed(&self, ro: &Id) -> bool
        ensures { result ≡ (rows_of self.now ro.now).armed }
    {
        match self.rows.find(ro) {
            Some(held) => held.is_armed(),
            None => false,
        }
    }

    /// Puts another playlist in place of that of an order, and takes the mark off.
    pub fn load(&mut self, ro: &Id, list: Vec<PlayItem>) -> Result<(), NoMemory>
        ensures ok { OnOk result (self.new ≡ row_changed (loaded list.items) ro.now self.old) }
        ensures err { OnErr result (self.new ≡ self.old) }
    {
        self.rows.put(ro, Held::new(list, false))
    }

    /// Marks an order, or takes the mark off.
    pub fn mark(&mut self, ro: &Id, armed: bool) -> Result<(), NoMemory>
        ensures ok { OnOk result (self.new ≡ row_changed (marked armed) ro.now self.old) }
        ensures err { OnErr result (self.new ≡ self.old) }
    {
        match self.rows.find(ro) {
            Some(_) => {
                self.mark_row(ro, armed);
                Ok(())
            }
            None => self.add_row(ro, armed),
        }
    }

    // Marks an order that has a row. It takes no memory.
    fn mark_row(&mut self, ro: &Id, armed: bool)
        requires { IsSome (find_row ro.now self.old) }
        ensures { self.new ≡ row_changed (marked armed) ro.now self.old }
    {
        let mut held = Held::new(Vec::new(self.rows.allocator()), armed);
        self.rows.exchange(ro, &mut held);
        held.mark(armed);
        self.rows.exchange(ro, &mut held);
    }

    // Marks an order that has no row.
    fn add_row(&mut self, ro: &Id, armed: bool) -> Result<(), NoMemory>
        requires { find_row ro.now self.old ≡ None }
        ensures ok { OnOk result (self.new ≡ row_changed (marked armed) ro.now self.old) }
        ensures err { OnErr result (self.new ≡ self.old) }
    {
        let list = Vec::new(self.rows.allocator());
        self.rows.put(ro, Held::new(list, armed))
    }
}
