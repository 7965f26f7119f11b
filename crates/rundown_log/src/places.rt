//! The places of an order's entries.
ghost use Rattle.std.specs.Prelude.{◌≡◌, [], length, slice_get, OnOk, IsSome};
ghost use Rattle.mos_machines.specs.Tables.{look};
ghost use Rattle.order_table.specs.Rows.{find_row};

use mos_fields::{Id, NoMemory};
use order_table::OrderTable;
use std::alloc::Global;
use std::marker::Model;

// Places in a journal, ascending.
#[derive(Drop)]
pub struct Places {
    pub(crate) items: Vec<usize>,
}

impl Model for Places {
    ghost use Rattle.std.specs.Prelude.{List, ℕ};

    ghost Value = { List ℕ };

    ghost view = { λ p. p.items.items };
}

impl Places {
    // No places. It takes no memory.
    pub fn new(alloc: Global) -> Self
        ensures { result ≡ [] }
    {
        Places {
            items: Vec::new(alloc),
        }
    }

    // How many there are.
    pub fn len(&self) -> usize
        ensures { result ≡ length self.now }
    {
        self.items.len()
    }

    // The place of entry `k`, where it is there.
    pub fn get(&self, k: usize) -> Option<usize>
        ensures { result ≡ slice_get self.now k }
    {
        self.items.get(k).copied()
    }
}

// How many entries an order has.
pub fn count_in(places: &OrderTable<Places>, ro: &Id) -> usize
    ensures { result ≡ length (look [] places.now ro.now) }
{
    match places.find(ro) {
        Some(row) => row.len(),
        None => 0,
    }
}

// The place of entry `k` of an order, where it has such an entry.
pub fn find_in(places: &OrderTable<Places>, ro: &Id, k: usize) -> Option<usize>
    ensures { result ≡ slice_get (look [] places.now ro.now) k }
{
    match places.find(ro) {
        Some(row) => row.get(k),
        None => None,
    }
}

// Gives an order a row, where it has none. Only that takes memory.
pub fn know(places: &mut OrderTable<Places>, ro: &Id) -> Result<(), NoMemory>
    ensures there { OnOk result (IsSome (find_row ro.now places.new)) }
    ensures same { look [] places.new ≡ look [] places.old }
{
    match places.find(ro) {
        Some(_) => Ok(()),
        None => places.put(ro, Places::new(places.allocator())),
    }
}
