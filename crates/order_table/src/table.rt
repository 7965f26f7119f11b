//! A table by roID.
ghost use Rattle.std.specs.Prelude.{◌≡◌, [], ◌∷◌, IfOk, OnOk, OnErr, IsSome, Some};
ghost use Rattle.std.specs.List.{filter};
ghost use Rattle.std.specs.Option.{option_copied};
ghost use Rattle.mos_edits.specs.Rows.{row_ids, put_row, map_rows};
ghost use Rattle.order_table.specs.Rows.{IsAscending, find_row, put_rows, without_rows};

use crate::row_change::{RowChange, change_rows};
use crate::row_test::{RowTest, retain_in};
use crate::rows::{copies_of, exchange_in, find_in, put_all_in, put_in, remove_in};
use mos_fields::{Id, NoMemory, Text};
use mos_values::TryClone;
use std::alloc::Global;
use std::marker::Model;

/// Values by roID. The rows stand in the order of their roIDs, character by character, and no two have the same.
///
/// A look-up halves the rows, and takes no memory.
#[derive(Drop)]
pub struct OrderTable<T> {
    rows: Vec<(Id, T)>,
}

impl<T> Model for OrderTable<T> {
    ghost use Rattle.std.specs.Prelude.{List, ℕ};
    ghost use Rattle.mos_edits.specs.Rows.{row_ids};
    ghost use Rattle.order_table.specs.Rows.{IsAscending};

    ghost Value = { List (List ℕ × T) };

    ghost view = { λ t. t.rows.items };

    ghost invariant = { λ t. IsAscending (row_ids t.rows.items) };
}

impl<T> OrderTable<T> {
    /// No rows. It takes no memory; the table grows in this allocator.
    pub fn new(alloc: Global) -> Self
        ensures { result ≡ [] }
    {
        OrderTable {
            rows: Vec::new(alloc),
        }
    }

    /// The allocator of the table.
    pub fn allocator(&self) -> Global {
        *self.rows.allocator()
    }

    /// The rows, to go over them in ascending order.
    pub fn rows(&self) -> &[(Id, T)]
        ensures { result.now ≡ self.now }
    {
        &self.rows
    }

    /// The law of the type: the roIDs ascend.
    pub fn has_ascending_ids(&self)
        ensures { IsAscending (row_ids self.now) }
    {
        let _rows = &self.rows;
    }

    /// The value in the row of this roID; `None` where there is no such row.
    pub fn find(&self, ro: &Id) -> Option<&T>
        ensures { option_copied result ≡ find_row ro.now self.now }
    {
        find_in(&self.rows, ro.text())
    }

    /// The same by a text, which may be no roID. It takes no memory.
    pub fn find_text(&self, ro: &Text) -> Option<&T>
        ensures { option_copied result ≡ find_row ro.now self.now }
    {
        find_in(&self.rows, ro)
    }

    /// Exchanges the value in the row of this roID for another. It takes no memory.
    pub fn exchange(&mut self, ro: &Id, value: &mut T)
        requires { IsSome (find_row ro.now self.old) }
        ensures table { self.new ≡ put_row ro.now value.old self.old }
        ensures value { find_row ro.now self.old ≡ Some value.new }
    {
        exchange_in(&mut self.rows, ro, value);
    }

    /// Changes the value of each row. It takes no memory.
    pub fn change_all<C: RowChange<T>>(&mut self, change: &C)
        ensures { self.new ≡ map_rows (C.changed change.now) self.old }
    {
        change_rows(&mut self.rows, change);
    }
}

impl<T: Drop> OrderTable<T> {
    /// Puts a value into the row of this roID, which is added where there is none. Without memory for that the table
    /// stays as it was, and the value is dropped.
    pub fn put(&mut self, ro: &Id, value: T) -> Result<(), NoMemory>
        ensures ok { OnOk result (self.new ≡ put_row ro.now value self.old) }
        ensures err { OnErr result (self.new ≡ self.old) }
    {
        put_in(&mut self.rows, ro, value)
    }

    /// Takes out the row of this roID, where there is one. It takes no memory.
    pub fn remove(&mut self, ro: &Id)
        ensures { self.new ≡ without_rows (ro.now ∷ []) self.old }
    {
        self.remove_text(ro.text());
    }

    /// The same by a text, which may be no roID. It takes no memory.
    pub fn remove_text(&mut self, ro: &Text)
        ensures { self.new ≡ without_rows (ro.now ∷ []) self.old }
    {
        remove_in(&mut self.rows, ro);
    }

    /// Takes out each row that the test doesn't keep. The rows are gone over once. It takes no memory.
    pub fn retain<C: RowTest>(&mut self, test: &C)
        ensures { self.new ≡ filter (λ row. C.kept test.now row.0) self.old }
    {
        retain_in(&mut self.rows, test);
    }

    /// Puts values into the rows of their roIDs, one after the other. Without memory for all of them the table stays as it
    /// was, and they are dropped.
    pub fn put_all(&mut self, new: Vec<(Id, T)>) -> Result<(), NoMemory>
        ensures ok { OnOk result (self.new ≡ put_rows new.items self.old) }
        ensures err { OnErr result (self.new ≡ self.old) }
    {
        put_all_in(&mut self.rows, new)
    }
}

impl<T: TryClone> OrderTable<T> {
    /// The same table again. The only error is that memory runs out.
    pub fn try_clone(&self) -> Result<Self, NoMemory>
        ensures { IfOk result (λ t. t ≡ self.now) }
    {
        Ok(OrderTable {
            rows: copies_of(self.allocator(), &self.rows)?,
        })
    }
}
