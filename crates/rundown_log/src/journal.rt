//! The journal in memory.
ghost use Rattle.std.specs.Prelude.{◌≡◌, [], ◌∷◌, ◌++◌, ◌<◌, ◌≤◌, length, vec_len, slice_get, Some, OnOk, OnErr, IfOk};
ghost use Rattle.std.specs.Option.{option_copied};
ghost use Rattle.std.specs.Vec.{vec_capacity};
ghost use Rattle.mos_edits.specs.Entries.{entry_of, entry_count as entry_count_of};
ghost use Rattle.mos_machines.specs.Values.{edit_message};
ghost use Rattle.mos_values.specs.Sound.{IsSound};
ghost use Rattle.rundown_log.specs.Keeping.{Appends, LeavesCertain, LeavesSo};
ghost use Rattle.rundown_log.specs.Positions.{positions};

use crate::entry::{Entry, edit_ro};
use crate::keeper::{KeepFault, Keeper};
use crate::places::{Places, count_in, find_in, know};
use mos_edits::Edit;
use mos_fields::{Id, NoMemory, let_go};
use order_table::OrderTable;
use std::alloc::Global;
use std::marker::Model;

/// The entries of the server's journal, with the places of each order's.
#[derive(Drop)]
pub struct Journal {
    entries: Vec<Entry>,
    places: OrderTable<Places>,
}

impl Model for Journal {
    ghost use Rattle.std.specs.Prelude.{List};
    ghost use Rattle.mos_edits.specs.Entries.{Entry as JournalEntry};
    ghost use Rattle.rundown_log.specs.Positions.{ArePositions};

    ghost Value = { List JournalEntry };

    ghost view = { λ j. j.entries.items };

    ghost invariant = { λ j. ArePositions j.entries.items j.places };
}

// Room for one more entry and its place.
fn reserve(entries: &mut Vec<Entry>, places: &mut Vec<usize>) -> Result<(), NoMemory>
    ensures entries { entries.new.items ≡ entries.old.items }
    ensures places { places.new.items ≡ places.old.items }
    ensures entry_room { OnOk result (vec_len entries.new < vec_capacity entries.new) }
    ensures place_room { OnOk result (vec_len places.new < vec_capacity places.new) }
{
    entries.reserve(1)?;
    places.reserve(1)?;
    Ok(())
}

// Puts an entry and its place at the ends, where there is room.
fn push(entries: &mut Vec<Entry>, places: &mut Vec<usize>, entry: Entry)
    requires entry_room { vec_len entries.old < vec_capacity entries.old }
    requires place_room { vec_len places.old < vec_capacity places.old }
    ensures entries { entries.new.items ≡ entries.old.items ++ entry ∷ [] }
    ensures places { places.new.items ≡ places.old.items ++ length entries.old.items ∷ [] }
{
    places.push(entries.len()).unwrap();
    entries.push(entry).unwrap();
}

// Puts an entry and its place at the ends, once the keeper has it, where there is room.
fn append_in<K: Keeper>(
    entries: &mut Vec<Entry>,
    places: &mut Vec<usize>,
    keeper: &mut K,
    entry: Entry,
) -> Result<(), KeepFault>
    requires sound { IsSound (edit_message entry.edit) }
    requires entry_room { vec_len entries.old < vec_capacity entries.old }
    requires place_room { vec_len places.old < vec_capacity places.old }
    ensures appends { Appends (K.kept keeper.old) (K.kept keeper.new) (K.faults keeper.old) (K.faults keeper.new) entry result }
    ensures certainty { LeavesCertain (K.kept keeper.old) (K.kept keeper.new) (K.certainty keeper.old) (K.certainty keeper.new) entry result }
    ensures leaves { K.appended keeper.old entry result keeper.new }
    ensures rises { K.faults keeper.old ≤ K.faults keeper.new }
    ensures entries { OnOk result (entries.new.items ≡ entries.old.items ++ entry ∷ []) }
    ensures places { OnOk result (places.new.items ≡ places.old.items ++ length entries.old.items ∷ []) }
    ensures entries_err { OnErr result (entries.new.items ≡ entries.old.items) }
    ensures places_err { OnErr result (places.new.items ≡ places.old.items) }
{
    match keeper.append(&entry) {
        Ok(()) => {
            push(entries, places, entry);
            Ok(())
        }
        Err(fault) => {
            let_go(entry);
            Err(fault)
        }
    }
}

// Puts a copy of an entry and its place at the ends. Without memory both lists stay as they were.
fn add_in(entries: &mut Vec<Entry>, places: &mut Vec<usize>, entry: &Entry) -> Result<(), NoMemory>
    ensures entries { OnOk result (entries.new.items ≡ entries.old.items ++ entry.now ∷ []) }
    ensures places { OnOk result (places.new.items ≡ places.old.items ++ length entries.old.items ∷ []) }
    ensures entries_err { OnErr result (entries.new.items ≡ entries.old.items) }
    ensures places_err { OnErr result (places.new.items ≡ places.old.items) }
{
    reserve(entries, places)?;
    let copy = entry.try_clone()?;
    push(entries, places, copy);
    Ok(())
}

// The entry of an edit, in memory of its own.
fn entry_of_edit(edit: &Edit) -> Result<Entry, NoMemory>
    ensures { IfOk result (λ e. e ≡ entry_of edit.now) }
{
    Ok(Entry::new(edit.try_clone()?))
}

// Puts the entry of an edit and its place at the ends, once the keeper has it. Without memory, or where the keeper fails,
// both lists stay as they were.
fn keep_in<K: Keeper>(
    entries: &mut Vec<Entry>,
    places: &mut Vec<usize>,
    keeper: &mut K,
    edit: &Edit,
) -> Result<(), KeepFault>
    requires { IsSound (edit_message edit.now) }
    ensures appends { Appends (K.kept keeper.old) (K.kept keeper.new) (K.faults keeper.old) (K.faults keeper.new) (entry_of edit.now) result }
    ensures certainty { LeavesCertain (K.kept keeper.old) (K.kept keeper.new) (K.certainty keeper.old) (K.certainty keeper.new) (entry_of edit.now) result }
    ensures leaves { LeavesSo K.appended keeper.old keeper.new (entry_of edit.now) result }
    ensures rises { K.faults keeper.old ≤ K.faults keeper.new }
    ensures entries { OnOk result (entries.new.items ≡ entries.old.items ++ entry_of edit.now ∷ []) }
    ensures places { OnOk result (places.new.items ≡ places.old.items ++ length entries.old.items ∷ []) }
    ensures entries_err { OnErr result (entries.new.items ≡ entries.old.items) }
    ensures places_err { OnErr result (places.new.items ≡ places.old.items) }
{
    reserve(entries, places)?;
    let entry = entry_of_edit(edit)?;
    append_in(entries, places, keeper, entry)
}

impl Journal {
    /// No entries. It takes no memory; the journal grows in this allocator.
    pub fn new(alloc: Global) -> Self
        ensures { result ≡ [] }
    {
        Journal {
            entries: Vec::new(alloc),
            places: OrderTable::new(alloc),
        }
    }

    /// The allocator of the journal.
    pub fn allocator(&self) -> Global {
        *self.entries.allocator()
    }

    /// How many entries there are.
    pub fn len(&self) -> usize
        ensures { result ≡ length self.now }
    {
        self.entries.len()
    }

    /// The entry at a place, which counts from 0; `None` from the end on.
    pub fn get(&self, place: usize) -> Option<&Entry>
        ensures { option_copied result ≡ slice_get self.now place }
    {
        self.entries.get(place)
    }

    /// How many entries an order has. It takes no memory.
    pub fn entry_count(&self, ro: &Id) -> usize
        ensures { result ≡ entry_count_of self.now ro.now }
    {
        count_in(&self.places, ro)
    }

    /// The entry at a place, which counts from 0.
    pub fn at(&self, place: usize) -> &Entry
        requires { place < length self.now }
        ensures { slice_get self.now place ≡ Some result.now }
    {
        &self.entries[place]
    }

    /// The place of entry `k` of an order, which counts from 0; `None` where the order has no such entry. It takes no
    /// memory.
    pub fn find(&self, ro: &Id, k: usize) -> Option<usize>
        ensures { result ≡ slice_get (positions ro.now self.now) k }
    {
        find_in(&self.places, ro, k)
    }

    /// Puts a copy of an entry at the end that stands with a keeper already. The only error is that memory runs out; the
    /// journal is then as it was.
    pub fn add(&mut self, entry: &Entry) -> Result<(), NoMemory>
        ensures ok { OnOk result (self.new ≡ self.old ++ entry.now ∷ []) }
        ensures err { OnErr result (self.new ≡ self.old) }
    {
        let ro = entry.ro().try_clone()?;
        know(&mut self.places, &ro)?;
        let mut places = Places::new(self.places.allocator());
        self.places.exchange(&ro, &mut places);
        let added = add_in(&mut self.entries, &mut places.items, entry);
        self.places.exchange(&ro, &mut places);
        added
    }

    /// Puts the entry of an edit at the end, once the keeper has it.
    ///
    /// `Failed` comes only where the keeper failed; with `NoMemory` it neither keeps nor counts anything. After each error
    /// the journal is as it was.
    pub fn keep<K: Keeper>(&mut self, keeper: &mut K, edit: &Edit) -> Result<(), KeepFault>
        requires { IsSound (edit_message edit.now) }
        ensures appends { Appends (K.kept keeper.old) (K.kept keeper.new) (K.faults keeper.old) (K.faults keeper.new) (entry_of edit.now) result }
        ensures certainty { LeavesCertain (K.kept keeper.old) (K.kept keeper.new) (K.certainty keeper.old) (K.certainty keeper.new) (entry_of edit.now) result }
        ensures leaves { LeavesSo K.appended keeper.old keeper.new (entry_of edit.now) result }
        ensures rises { K.faults keeper.old ≤ K.faults keeper.new }
        ensures ok { OnOk result (self.new ≡ self.old ++ entry_of edit.now ∷ []) }
        ensures err { OnErr result (self.new ≡ self.old) }
    {
        let ro = edit_ro(edit).try_clone()?;
        know(&mut self.places, &ro)?;
        let mut places = Places::new(self.places.allocator());
        self.places.exchange(&ro, &mut places);
        let kept = keep_in(&mut self.entries, &mut places.items, keeper, edit);
        self.places.exchange(&ro, &mut places);
        kept
    }
}
