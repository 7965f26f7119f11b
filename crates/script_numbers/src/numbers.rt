//! Which entry's script stands on each story, order by order.
ghost use Rattle.std.specs.Prelude.{◌≡◌, ℕ, List, [], ◌∷◌, ◌++◌, OnOk, IfOk, Some, None};
ghost use Rattle.mos_edits.specs.Orders.{edit_ro};
ghost use Rattle.mos_edits.specs.Entries.{Entry, entry_of, entry_count, acceptance, order_now, in_force};
ghost use Rattle.script_numbers.specs.Numbers.{AreNumbers, IsChanged, IsSame, HasRoom, number_next};

use crate::orders::{Orders, clear, know, numbers_of, put, take_out};
use mos_edits::Edit;
use mos_fields::{Id, NoMemory};
use order_table::OrderTable;
use running_order::Order;
use std::alloc::Global;
use std::marker::Model;

/// By roID and storyID, the number of the entry whose script stands on the story. Contracts see the rows.
///
/// `AreNumbers` says that they are those of a journal: each accepted entry is told here, after `reserve`, which alone takes
/// memory.
#[derive(Drop)]
pub struct ScriptNumbers {
    table: Orders,
}

impl Model for ScriptNumbers {
    ghost use Rattle.std.specs.Prelude.{ℕ, List, Option};
    ghost use Rattle.mos_edits.specs.Texts.{Text};

    ghost Value = { List (Text × List (Text × Option ℕ)) };

    ghost view = { λ n. n.table };
}

// Gives the story of a script a row, where it has none.
fn reserve_in(table: &mut Orders, edit: &Edit) -> Result<(), NoMemory>
    ensures room { OnOk result (HasRoom edit.now table.new) }
    ensures same { IsSame table.old table.new }
{
    match edit {
        Edit::Script(script) => know(table, &script.as_ref().ro, &script.as_ref().story),
        _ => Ok(()),
    }
}

// What an edit of this number makes of the numbers of its order.
fn accept_in(table: &mut Orders, edit: &Edit, number: u64)
    requires { HasRoom edit.now table.old }
    ensures { IsChanged (edit_ro edit.now) (number_next edit.now number) table.old table.new }
{
    match edit {
        Edit::Create(body) => clear(table, &body.as_ref().header.ro),
        Edit::Replace(body) => clear(table, &body.as_ref().header.ro),
        Edit::Delete(ro) => clear(table, ro),
        Edit::Metadata(_) => {}
        Edit::Act { ro, action } => take_out(table, ro, action),
        Edit::Air { ro: _, air: _ } => {}
        Edit::Script(script) => put(table, &script.as_ref().ro, &script.as_ref().story, number),
    }
}

impl ScriptNumbers {
    /// No numbers. It takes no memory; the table grows in this allocator.
    pub fn new(alloc: Global) -> Self
        ensures rows { result ≡ [] }
        ensures numbers { AreNumbers [] result }
    {
        ScriptNumbers {
            table: OrderTable::new(alloc),
        }
    }

    /// Makes room for the number that an edit gives. The only error is that memory runs out; the numbers stay as they were in
    /// any case.
    pub fn reserve(&mut self, edit: &Edit) -> Result<(), NoMemory>
        ensures room { OnOk result (HasRoom edit.now self.new) }
        ensures same { IsSame self.old self.new }
        ensures numbers { (journal : List Entry) → AreNumbers journal self.old → AreNumbers journal self.new }
    {
        reserve_in(&mut self.table, edit)
    }

    /// An edit was accepted as the entry of its order that has this number. It takes no memory.
    pub fn accept(&mut self, edit: &Edit, number: u64)
        requires { HasRoom edit.now self.old }
        ensures changed { IsChanged (edit_ro edit.now) (number_next edit.now number) self.old self.new }
        ensures numbers { (journal : List Entry) → AreNumbers journal self.old → acceptance journal (entry_of edit.now) ≡ None → number ≡ entry_count journal (edit_ro edit.now) → AreNumbers (journal ++ entry_of edit.now ∷ []) self.new }
    {
        accept_in(&mut self.table, edit, number);
    }

    /// The numbers of the entries whose scripts stand on the stories of an order, in the order of the stories. The only error
    /// is that memory runs out.
    pub fn in_order(&self, alloc: Global, ro: &Id, order: &Order) -> Result<Vec<u64>, NoMemory>
        ensures { (journal : List Entry) → AreNumbers journal self.now → order_now journal ro.now ≡ Some order.now → IfOk result (λ v. v.items ≡ in_force journal ro.now (entry_count journal ro.now)) }
    {
        numbers_of(alloc, &self.table, ro, order)
    }
}
