//! Stories in order, with their places by table.
ghost use Rattle.std.specs.Prelude.{◌≡◌, ℕ, ◌<◌, ◌≤◌, ◌+◌, ◌++◌, [], ◌∷◌, length, take, drop, remove, swap, slice_get, not, IfOk, OnOk, OnErr, IfSome};
ghost use Rattle.std.specs.Option.{option_copied};
ghost use Rattle.indexmap.specs.IndexMap.{index_map_len, move_index};
ghost use Rattle.mos_edits.specs.Texts.{has_id};
ghost use Rattle.mos_values.specs.Distinct.{AreDistinct, item_ids, story_ids};
ghost use Rattle.mos_values.specs.Units.{capped, units_in};
ghost use Rattle.mos_values.specs.Views.{stories_events};
ghost use Rattle.running_order.specs.Places.{place_of, put_in, put_over, items_at, edit_items};
ghost use Rattle.running_order.specs.Sizes.{item_size, size_at, story_size};

use crate::sizes::plus;
use crate::story_entry::StoryEntry;
use indexmap::IndexMap;
use mos_fields::{NoMemory, Text, let_go};
use mos_values::{Items, Stories, Story, story_units};
use std::alloc::Global;
use std::marker::Model;

/// Stories with distinct storyIDs, in order. A look-up doesn't walk them and takes no memory.
#[derive(Drop)]
pub struct StoryTable {
    table: IndexMap<Vec<u16>, StoryEntry>,
}

impl Model for StoryTable {
    ghost use Rattle.std.specs.Prelude.{List, map};
    ghost use Rattle.mos_values.specs.StoryValue.{Story as StoryValue};
    ghost use Rattle.running_order.specs.Entries.{AreEntries};

    ghost Value = { List StoryValue };

    ghost view = { λ t. map (λ e. e.1) t.table.entries };

    ghost invariant = { λ t. AreEntries t.table.entries };
}

impl StoryTable {
    /// No stories. Takes no memory.
    pub fn new(alloc: Global) -> Self
        ensures { result ≡ [] }
    {
        StoryTable {
            table: IndexMap::new(alloc),
        }
    }

    /// No stories, and room for so many.
    fn with_room(alloc: Global, count: usize) -> Result<Self, NoMemory>
        ensures { IfOk result (λ t. t ≡ []) }
    {
        Ok(StoryTable {
            table: IndexMap::with_capacity(alloc, count)?,
        })
    }

    /// The same stories again, each copied once. The only error is that memory runs out.
    pub fn try_clone(&self) -> Result<Self, NoMemory>
        ensures { IfOk result (λ t. t ≡ self.now) }
    {
        self.has_distinct_ids();
        let alloc = self.allocator();
        let mut copy = StoryTable::with_room(alloc, self.table.len())?;
        for i in 0..self.table.len() {
            push_copy(&mut copy, alloc, self.table[i].story())?;
        }
        Ok(copy)
    }

    /// The allocator of the table.
    pub fn allocator(&self) -> Global {
        *self.table.allocator()
    }

    /// How many stories there are.
    pub fn len(&self) -> usize
        ensures { result ≡ length self.now }
    {
        self.table.len()
    }

    /// No two stories have the same storyID.
    pub fn has_distinct_ids(&self)
        ensures { AreDistinct (story_ids self.now) }
    {
        let _len = self.table.len();
    }

    /// The place of a story.
    pub fn place(&self, id: &Text) -> Option<usize>
        ensures place { result ≡ place_of id.now (story_ids self.now) }
        ensures within { IfSome result (λ i. i < length self.now) }
    {
        self.table.get_index_of(id.units())
    }

    /// Whether none of the stories from a place on has this storyID. Takes no memory.
    pub fn has_none_from(&self, left: usize, id: &Text) -> bool
        ensures { result ≡ not (has_id id.now (story_ids (drop left self.now))) }
    {
        self.has_distinct_ids();
        match self.place(id) {
            Some(at) => at < left,
            None => true,
        }
    }

    /// The story at a place, with the table of its items.
    pub fn entry(&self, i: usize) -> Option<&StoryEntry>
        ensures { option_copied result ≡ slice_get self.now i }
    {
        let (_, entry) = self.table.get_index(i)?;
        Some(entry)
    }

    /// The code units of the stories' elements in their canonical encoding, 2^64 - 1 where that is smaller.
    pub fn units(&self) -> u64
        ensures { result ≡ capped (units_in (stories_events self.now)) }
    {
        let mut count = 0;
        for i in 0..self.table.len() {
            count = plus(count, story_units(self.table[i].story()));
        }
        count
    }

    /// The code units of the element of the story at a place, 2^64 - 1 where that is smaller.
    pub fn story_units(&self, at: usize) -> u64
        requires { at < length self.now }
        ensures { result ≡ capped (size_at story_size self.now at) }
    {
        story_units(self.table[at].story())
    }

    /// The code units of the element of an item of a story, 2^64 - 1 where that is smaller.
    pub fn item_units(&self, story: usize, at: usize) -> u64
        requires story { story < length self.now }
        requires within { at < length (items_at self.now story) }
        ensures { result ≡ capped (size_at item_size (items_at self.now story) at) }
    {
        self.table[story].item_units(at)
    }

    /// Copies of the stories, in order. The only error is that memory runs out.
    pub fn to_stories(&self) -> Result<Stories, NoMemory>
        ensures { IfOk result (λ l. l ≡ self.now) }
    {
        let mut list = Stories::new(self.allocator());
        for i in 0..self.table.len() {
            add_copy(&mut list, self.table[i].story())?;
        }
        Ok(list)
    }

    /// Takes out the story at this place.
    pub fn remove(&mut self, at: usize)
        requires { at < length self.old }
        ensures { self.new ≡ remove self.old at }
    {
        let_go(self.table.shift_remove_index(at));
    }

    /// Takes out the story at `from`, and puts it back so that it stands at `to`.
    pub fn move_to(&mut self, from: usize, to: usize)
        requires from { from < length self.old }
        requires to { to < length self.old }
        ensures { self.new ≡ move_index self.old from to }
    {
        self.table.move_index(from, to);
    }

    /// Exchanges two stories.
    pub fn swap(&mut self, a: usize, b: usize)
        requires a { a < length self.old }
        requires b { b < length self.old }
        ensures { self.new ≡ swap self.old a b }
    {
        self.table.swap_indices(a, b);
    }

    /// Puts a story at the end, whose storyID isn't there yet.
    pub fn push(&mut self, alloc: Global, story: Story) -> Result<(), NoMemory>
        requires { AreDistinct (story_ids self.old ++ story.id ∷ []) }
        ensures ok { OnOk result (self.new ≡ self.old ++ story ∷ []) }
        ensures err { OnErr result (self.new ≡ self.old) }
    {
        let key = Vec::from_slice(alloc, story.id.text().units())?;
        let entry = StoryEntry::new(alloc, story)?;
        let_go(self.table.insert(key, entry)?);
        Ok(())
    }

    /// Puts the stories of another table in before a place, which may be the end.
    pub fn insert_all(&mut self, at: usize, mut new: StoryTable) -> Result<(), NoMemory>
        requires within { at ≤ length self.old }
        requires distinct { AreDistinct (story_ids self.old ++ story_ids new) }
        ensures ok { OnOk result (self.new ≡ put_in self.old at new) }
        ensures err { OnErr result (self.new ≡ self.old) }
    {
        let was = self.table.len();
        self.table.append(&mut new.table)?;
        move_last(&mut self.table, was, at);
        Ok(())
    }

    /// Puts the stories of another table in place of the one that stands there.
    pub fn replace(&mut self, at: usize, mut new: StoryTable) -> Result<(), NoMemory>
        requires within { at < length self.old }
        requires distinct { AreDistinct (story_ids (remove self.old at) ++ story_ids new) }
        ensures ok { OnOk result (self.new ≡ put_over self.old at new) }
        ensures err { OnErr result (self.new ≡ self.old) }
    {
        self.table.reserve(new.table.len())?;
        let_go(self.table.shift_remove_index(at));
        let was = self.table.len();
        self.table.append(&mut new.table).unwrap();
        move_last(&mut self.table, was, at);
        Ok(())
    }

    /// Puts copies of items in before a place in a story.
    pub fn insert_items(&mut self, story: usize, at: usize, items: &Items) -> Result<(), NoMemory>
        requires story { story < length self.old }
        requires within { at ≤ length (items_at self.old story) }
        requires distinct { AreDistinct (item_ids (items_at self.old story ++ items.now)) }
        ensures ok { OnOk result (self.new ≡ edit_items self.old story (λ old. put_in old at items.now)) }
        ensures err { OnErr result (self.new ≡ self.old) }
    {
        let entry = &mut self.table[story];
        entry.insert_items(at, items)
    }

    /// Puts copies of items in place of one in a story.
    pub fn replace_item(&mut self, story: usize, at: usize, items: &Items) -> Result<(), NoMemory>
        requires story { story < length self.old }
        requires within { at < length (items_at self.old story) }
        requires distinct { AreDistinct (item_ids (remove (items_at self.old story) at ++ items.now)) }
        ensures ok { OnOk result (self.new ≡ edit_items self.old story (λ old. put_over old at items.now)) }
        ensures err { OnErr result (self.new ≡ self.old) }
    {
        let entry = &mut self.table[story];
        entry.replace_item(at, items)
    }

    /// Removes an item of a story.
    pub fn remove_item(&mut self, story: usize, at: usize)
        requires story { story < length self.old }
        requires within { at < length (items_at self.old story) }
        ensures { self.new ≡ edit_items self.old story (λ old. remove old at) }
    {
        let entry = &mut self.table[story];
        entry.remove_item(at);
    }

    /// Takes out an item of a story, and puts it back so that it stands at `to`.
    pub fn move_item(&mut self, story: usize, from: usize, to: usize)
        requires story { story < length self.old }
        requires from { from < length (items_at self.old story) }
        requires to { to < length (items_at self.old story) }
        ensures { self.new ≡ edit_items self.old story (λ old. move_index old from to) }
    {
        let entry = &mut self.table[story];
        entry.move_item(from, to);
    }

    /// Exchanges two items of a story.
    pub fn swap_items(&mut self, story: usize, a: usize, b: usize)
        requires story { story < length self.old }
        requires a { a < length (items_at self.old story) }
        requires b { b < length (items_at self.old story) }
        ensures { self.new ≡ edit_items self.old story (λ old. swap old a b) }
    {
        let entry = &mut self.table[story];
        entry.swap_items(a, b);
    }
}

// Puts a copy of a story at the end, whose storyID isn't there yet.
fn push_copy(table: &mut StoryTable, alloc: Global, story: &Story) -> Result<(), NoMemory>
    requires { AreDistinct (story_ids table.old ++ story.now.id ∷ []) }
    ensures { OnOk result (table.new ≡ table.old ++ story.now ∷ []) }
{
    table.push(alloc, story.try_clone()?)
}

// Puts a copy of a story at the end.
fn add_copy(list: &mut Stories, story: &Story) -> Result<(), NoMemory>
    ensures { OnOk result (list.new ≡ list.old ++ story.now ∷ []) }
{
    list.push(story.try_clone()?)
}

/// The table of copies of a list's stories.
pub fn table_of(alloc: Global, stories: &Stories) -> Result<StoryTable, NoMemory>
    requires { AreDistinct (story_ids stories.now) }
    ensures { IfOk result (λ t. t ≡ stories.now) }
{
    let mut table = StoryTable::new(alloc);
    for story in stories.as_slice() {
        push_copy(&mut table, alloc, story)?;
    }
    Ok(table)
}

// So many entries are moved one by one; more of them at once.
const FEW: usize = 8;

// Moves the entries from `was` on to `at`, in their order.
fn move_last(map: &mut IndexMap<Vec<u16>, StoryEntry>, was: usize, at: usize)
    requires end { was ≤ index_map_len map.old }
    requires within { at ≤ was }
    ensures { map.new.entries ≡ put_in (take was map.old.entries) at (drop was map.old.entries) }
{
    if map.len() - was <= FEW {
        move_each(map, was, at);
    } else {
        move_many(map, was, at);
    }
}

// The same of many entries: at once, or one by one where there is no memory for that.
fn move_many(map: &mut IndexMap<Vec<u16>, StoryEntry>, was: usize, at: usize)
    requires end { was ≤ index_map_len map.old }
    requires within { at ≤ was }
    ensures { map.new.entries ≡ put_in (take was map.old.entries) at (drop was map.old.entries) }
{
    match move_at_once(map, was, at) {
        Ok(()) => {}
        Err(_) => move_each(map, was, at),
    }
}

// The same by taking out what is to stand behind, and putting it back at the end, so that each entry is moved twice at most.
// Where memory runs out, the map stays as it was.
fn move_at_once(
    map: &mut IndexMap<Vec<u16>, StoryEntry>,
    was: usize,
    at: usize,
) -> Result<(), NoMemory>
    requires end { was ≤ index_map_len map.old }
    requires within { at ≤ was }
    ensures ok { OnOk result (map.new.entries ≡ put_in (take was map.old.entries) at (drop was map.old.entries)) }
    ensures err { OnErr result (map.new.entries ≡ map.old.entries) }
{
    map.reserve(map.len() - at)?;
    let mut last = map.split_off(was)?;
    match map.split_off(at) {
        Ok(mut middle) => {
            map.append(&mut last).unwrap();
            map.append(&mut middle).unwrap();
            Ok(())
        }
        Err(fault) => {
            map.append(&mut last).unwrap();
            Err(NoMemory::from(fault))
        }
    }
}

// The same one by one.
fn move_each(map: &mut IndexMap<Vec<u16>, StoryEntry>, was: usize, at: usize)
    requires end { was ≤ index_map_len map.old }
    requires within { at ≤ was }
    ensures { map.new.entries ≡ put_in (take was map.old.entries) at (drop was map.old.entries) }
{
    let count = map.len() - was;
    for k in 0..count {
        map.move_index(was + k, at + k);
    }
}
