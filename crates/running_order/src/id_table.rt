//! Identifiers in order, with their places by table.
ghost use Rattle.std.specs.Prelude.{◌≡◌, true, ◌+◌, ◌<◌, ◌≤◌, [], ◌∷◌, ◌++◌, length, take, drop, remove, swap, IfOk, OnOk, OnErr, IfSome};
ghost use Rattle.indexmap.specs.IndexMap.{move_index};
ghost use Rattle.indexmap.specs.IndexSet.{index_set_len};
ghost use Rattle.running_order.specs.Places.{place_of, put_in, put_over};
ghost use Rattle.mos_values.specs.Distinct.{AreDistinct};

use indexmap::IndexSet;
use mos_fields::{NoMemory, Text};
use std::alloc::Global;
use std::marker::Model;

/// Distinct identifiers in order. A look-up doesn't walk them and takes no memory.
#[derive(Drop)]
pub struct IdTable {
    set: IndexSet<Vec<u16>>,
}

impl Model for IdTable {
    ghost use Rattle.std.specs.Prelude.{ℕ, List, map};
    ghost use Rattle.mos_fields.specs.Characters.{chars_of};
    ghost use Rattle.running_order.specs.Places.{AreKeys};

    ghost Value = { List (List ℕ) };

    ghost view = { λ t. map (λ k. chars_of k.items) t.set.keys };

    ghost invariant = { λ t. AreKeys (map (λ k. k.items) t.set.keys) };
}

impl IdTable {
    /// No identifiers. Takes no memory.
    pub fn new(alloc: Global) -> Self
        ensures { result ≡ [] }
    {
        IdTable {
            set: IndexSet::new(alloc),
        }
    }

    /// No identifiers, and room for so many.
    pub fn with_room(alloc: Global, count: usize) -> Result<Self, NoMemory>
        ensures { IfOk result (λ t. t ≡ []) }
    {
        Ok(IdTable {
            set: IndexSet::with_capacity(alloc, count)?,
        })
    }

    /// How many there are.
    pub fn len(&self) -> usize
        ensures { result ≡ length self.now }
    {
        self.set.len()
    }

    /// The allocator of the table.
    pub fn allocator(&self) -> Global {
        *self.set.allocator()
    }

    /// No two identifiers are equal.
    pub fn has_distinct_ids(&self)
        ensures { AreDistinct self.now }
    {
        let _len = self.set.len();
    }

    /// The place of an identifier, from 0.
    pub fn place(&self, id: &Text) -> Option<usize>
        ensures place { result ≡ place_of id.now self.now }
        ensures within { IfSome result (λ i. i < length self.now) }
    {
        self.set.get_index_of(id.units())
    }

    /// Takes out the one at this place.
    pub fn remove(&mut self, at: usize)
        requires { at < length self.old }
        ensures { self.new ≡ remove self.old at }
    {
        self.set.shift_remove_index(at);
    }

    /// Takes out the one at `from`, and puts it back so that it stands at `to`.
    pub fn move_to(&mut self, from: usize, to: usize)
        requires from { from < length self.old }
        requires to { to < length self.old }
        ensures { self.new ≡ move_index self.old from to }
    {
        self.set.move_index(from, to);
    }

    /// Exchanges two.
    pub fn swap(&mut self, a: usize, b: usize)
        requires a { a < length self.old }
        requires b { b < length self.old }
        ensures { self.new ≡ swap self.old a b }
    {
        self.set.swap_indices(a, b);
    }

    /// Puts an identifier at the end, which isn't there yet.
    pub fn push(&mut self, alloc: Global, id: &Text) -> Result<(), NoMemory>
        requires { AreDistinct (self.old ++ id.now ∷ []) }
        ensures ok { OnOk result (self.new ≡ self.old ++ id.now ∷ []) }
        ensures err { OnErr result (self.new ≡ self.old) }
    {
        let key = Vec::from_slice(alloc, id.units())?;
        self.set.insert(key)?;
        Ok(())
    }

    /// Puts the identifiers of another table in before a place, which may be the end.
    pub fn insert_all(&mut self, at: usize, mut new: IdTable) -> Result<(), NoMemory>
        requires within { at ≤ length self.old }
        requires distinct { AreDistinct (self.old ++ new) }
        ensures ok { OnOk result (self.new ≡ put_in self.old at new) }
        ensures err { OnErr result (self.new ≡ self.old) }
    {
        let was = self.set.len();
        self.set.append(&mut new.set)?;
        move_last(&mut self.set, was, at);
        Ok(())
    }

    /// Puts the identifiers of another table in place of the one that stands there.
    pub fn replace(&mut self, at: usize, mut new: IdTable) -> Result<(), NoMemory>
        requires within { at < length self.old }
        requires distinct { AreDistinct (remove self.old at ++ new) }
        ensures ok { OnOk result (self.new ≡ put_over self.old at new) }
        ensures err { OnErr result (self.new ≡ self.old) }
    {
        self.set.reserve(new.set.len())?;
        self.set.shift_remove_index(at);
        let was = self.set.len();
        self.set.append(&mut new.set).unwrap();
        move_last(&mut self.set, was, at);
        Ok(())
    }
}

// So many keys are moved one by one; more of them at once.
const FEW: usize = 8;

// Moves the keys from `was` on to `at`, in their order.
fn move_last(set: &mut IndexSet<Vec<u16>>, was: usize, at: usize)
    requires end { was ≤ index_set_len set.old }
    requires within { at ≤ was }
    ensures { set.new.keys ≡ put_in (take was set.old.keys) at (drop was set.old.keys) }
{
    if set.len() - was <= FEW {
        move_each(set, was, at);
    } else {
        move_many(set, was, at);
    }
}

// The same of many keys: at once, or one by one where there is no memory for that.
fn move_many(set: &mut IndexSet<Vec<u16>>, was: usize, at: usize)
    requires end { was ≤ index_set_len set.old }
    requires within { at ≤ was }
    ensures { set.new.keys ≡ put_in (take was set.old.keys) at (drop was set.old.keys) }
{
    match move_at_once(set, was, at) {
        Ok(()) => {}
        Err(_) => move_each(set, was, at),
    }
}

// The same by taking out what is to stand behind, and putting it back at the end, so that each key is moved twice at most.
// Where memory runs out, the set stays as it was.
fn move_at_once(set: &mut IndexSet<Vec<u16>>, was: usize, at: usize) -> Result<(), NoMemory>
    requires end { was ≤ index_set_len set.old }
    requires within { at ≤ was }
    ensures ok { OnOk result (set.new.keys ≡ put_in (take was set.old.keys) at (drop was set.old.keys)) }
    ensures err { OnErr result (set.new.keys ≡ set.old.keys) }
{
    set.reserve(set.len() - at)?;
    let mut last = set.split_off(was)?;
    match set.split_off(at) {
        Ok(mut middle) => {
            set.append(&mut last).unwrap();
            set.append(&mut middle).unwrap();
            Ok(())
        }
        Err(fault) => {
            set.append(&mut last).unwrap();
            Err(NoMemory::from(fault))
        }
    }
}

// The same one by one.
fn move_each(set: &mut IndexSet<Vec<u16>>, was: usize, at: usize)
    requires end { was ≤ index_set_len set.old }
    requires within { at ≤ was }
    ensures { set.new.keys ≡ put_in (take was set.old.keys) at (drop was set.old.keys) }
{
    let count = set.len() - was;
    for k in 0..count {
        set.move_index(was + k, at + k);
    }
}
