//! A story with the places of its items by table.
ghost use Rattle.std.specs.Prelude.{◌≡◌, ◌<◌, ◌≤◌, ◌+◌, ◌++◌, [], length, remove, swap, vec_len, IfOk, OnOk, OnErr, IfSome};
ghost use Rattle.indexmap.specs.IndexMap.{move_index};
ghost use Rattle.mos_values.specs.Distinct.{AreDistinct, item_ids};
ghost use Rattle.mos_values.specs.Units.{capped};
ghost use Rattle.running_order.specs.Places.{place_of, put_in, put_over};
ghost use Rattle.running_order.specs.Sizes.{item_size, size_at};

use crate::id_table::IdTable;
use crate::splice::put_in_room;
use mos_fields::{NoMemory, OptId, Text, let_go, pair_ok};
use mos_values::{Item, Items, Story, item_units};
use std::alloc::Global;
use std::marker::Model;
use std::mem::replace;

/// A story, and the table of its itemIDs in the order of its items.
#[derive(Drop)]
pub struct StoryEntry {
    story: Story,
    places: IdTable,
}

impl Model for StoryEntry {
    ghost use Rattle.std.specs.Prelude.{◌≡◌};
    ghost use Rattle.mos_values.specs.Distinct.{item_ids};
    ghost use Rattle.mos_values.specs.StoryValue.{Story as Value_};

    ghost Value = { Value_ };

    ghost view = { λ e. e.story };

    ghost invariant = { λ e. e.places ≡ item_ids e.story.items };
}

impl StoryEntry {
    /// The entry of a story.
    pub fn new(alloc: Global, story: Story) -> Result<StoryEntry, NoMemory>
        ensures { IfOk result (λ e. e ≡ story) }
    {
        story.has_distinct_items();
        let places = table_of(alloc, &story.items);
        let (story, places) = pair_ok(Ok(story), places)?;
        Ok(StoryEntry { story, places })
    }

    /// The story.
    pub fn story(&self) -> &Story
        ensures { result.now ≡ self.now }
    {
        &self.story
    }

    /// The place of an item.
    pub fn item_place(&self, item: &Text) -> Option<usize>
        ensures place { result ≡ place_of item.now (item_ids self.now.items) }
        ensures within { IfSome result (λ i. i < length self.now.items) }
    {
        self.places.place(item)
    }

    /// The code units of the element of the item at a place, 2^64 - 1 where that is smaller.
    pub fn item_units(&self, at: usize) -> u64
        requires { at < length self.now.items }
        ensures { result ≡ capped (size_at item_size self.now.items at) }
    {
        item_units(&self.story.items.as_slice()[at])
    }

    /// No two items have the same itemID.
    pub fn has_distinct_items(&self)
        ensures { AreDistinct (item_ids self.now.items) }
    {
        self.places.has_distinct_ids();
    }

    /// Puts copies of items in before a place, which may be the end.
    pub fn insert_items(&mut self, at: usize, items: &Items) -> Result<(), NoMemory>
        requires within { at ≤ length self.old.items }
        requires distinct { AreDistinct (item_ids (self.old.items ++ items.now)) }
        ensures ok { OnOk result (self.new ≡ record self.old { items = put_in self.old.items at items.now }) }
        ensures err { OnErr result (self.new ≡ self.old) }
        ensures same_story { self.new.id ≡ self.old.id }
    {
        let alloc = self.places.allocator();
        let ids = table_of(alloc, items)?;
        let new = items.try_clone()?.into_vec();
        let mut list = take_items(&mut self.story, alloc);
        let done = insert_both(&mut list, &mut self.places, at, new, ids);
        self.places.has_distinct_ids();
        put_items(&mut self.story, list);
        done
    }

    /// Puts copies of items in place of the one that stands there.
    pub fn replace_item(&mut self, at: usize, items: &Items) -> Result<(), NoMemory>
        requires within { at < length self.old.items }
        requires distinct { AreDistinct (item_ids (remove self.old.items at ++ items.now)) }
        ensures ok { OnOk result (self.new ≡ record self.old { items = put_over self.old.items at items.now }) }
        ensures err { OnErr result (self.new ≡ self.old) }
        ensures same_story { self.new.id ≡ self.old.id }
    {
        let alloc = self.places.allocator();
        let ids = table_of(alloc, items)?;
        let new = items.try_clone()?.into_vec();
        let mut list = take_items(&mut self.story, alloc);
        let done = replace_both(&mut list, &mut self.places, at, new, ids);
        self.places.has_distinct_ids();
        put_items(&mut self.story, list);
        done
    }

    /// Removes the item at this place.
    pub fn remove_item(&mut self, at: usize)
        requires { at < length self.old.items }
        ensures { self.new ≡ record self.old { items = remove self.old.items at } }
    {
        let alloc = self.places.allocator();
        let mut list = take_items(&mut self.story, alloc);
        let_go(list.remove(at));
        self.places.remove(at);
        self.places.has_distinct_ids();
        put_items(&mut self.story, list);
    }

    /// Takes out the item at `from`, and puts it back so that it stands at `to`.
    pub fn move_item(&mut self, from: usize, to: usize)
        requires from { from < length self.old.items }
        requires to { to < length self.old.items }
        ensures { self.new ≡ record self.old { items = move_index self.old.items from to } }
    {
        let alloc = self.places.allocator();
        let mut list = take_items(&mut self.story, alloc);
        move_in_list(&mut list, from, to);
        self.places.move_to(from, to);
        self.places.has_distinct_ids();
        put_items(&mut self.story, list);
    }

    /// Exchanges two items.
    pub fn swap_items(&mut self, a: usize, b: usize)
        requires a { a < length self.old.items }
        requires b { b < length self.old.items }
        ensures { self.new ≡ record self.old { items = swap self.old.items a b } }
    {
        let alloc = self.places.allocator();
        let mut list = take_items(&mut self.story, alloc);
        list.swap(a, b);
        self.places.swap(a, b);
        self.places.has_distinct_ids();
        put_items(&mut self.story, list);
    }
}

/// The table of the itemIDs of a list.
pub fn table_of(alloc: Global, items: &Items) -> Result<IdTable, NoMemory>
    requires { AreDistinct (item_ids items.now) }
    ensures { IfOk result (λ t. t ≡ item_ids items.now) }
{
    let mut table = IdTable::with_room(alloc, items.len())?;
    for item in items.as_slice() {
        table.push(alloc, item.id.text())?;
    }
    Ok(table)
}

// Takes the items out of a story.
fn take_items(story: &mut Story, alloc: Global) -> Vec<Item>
    ensures items { result.items ≡ story.old.items }
    ensures rest { story.new ≡ record story.old { items = [] } }
{
    replace(&mut story.items, Items::new(alloc)).into_vec()
}

// Gives a story these items in place of its own.
fn put_items(story: &mut Story, items: Vec<Item>)
    requires { AreDistinct (item_ids items.items) }
    ensures { story.new ≡ record story.old { items = items.items } }
{
    story.items = Items::from_vec(items);
}

// Puts items and their IDs in before a place, or leaves both as they are.
fn insert_both(
    list: &mut Vec<Item>,
    places: &mut IdTable,
    at: usize,
    new: Vec<Item>,
    ids: IdTable,
) -> Result<(), NoMemory>
    requires within { at ≤ vec_len list.old }
    requires tied { places.old ≡ item_ids list.old.items }
    requires new_tied { ids ≡ item_ids new.items }
    requires distinct { AreDistinct (places.old ++ ids) }
    ensures list_ok { OnOk result (list.new.items ≡ put_in list.old.items at new.items) }
    ensures list_err { OnErr result (list.new.items ≡ list.old.items) }
    ensures tied_still { places.new ≡ item_ids list.new.items }
{
    list.reserve(new.len())?;
    places.insert_all(at, ids)?;
    put_in_room(list, at, new);
    Ok(())
}

// Puts items and their IDs in place of the one that stands there, or leaves both as they are.
fn replace_both(
    list: &mut Vec<Item>,
    places: &mut IdTable,
    at: usize,
    new: Vec<Item>,
    ids: IdTable,
) -> Result<(), NoMemory>
    requires within { at < vec_len list.old }
    requires tied { places.old ≡ item_ids list.old.items }
    requires new_tied { ids ≡ item_ids new.items }
    requires distinct { AreDistinct (remove places.old at ++ ids) }
    ensures list_ok { OnOk result (list.new.items ≡ put_over list.old.items at new.items) }
    ensures list_err { OnErr result (list.new.items ≡ list.old.items) }
    ensures tied_still { places.new ≡ item_ids list.new.items }
{
    list.reserve(new.len())?;
    places.replace(at, ids)?;
    let_go(list.remove(at));
    put_in_room(list, at, new);
    Ok(())
}

// Takes the element at `from` out, and puts it back so that it stands at `to`.
fn move_in_list(list: &mut Vec<Item>, from: usize, to: usize)
    requires from { from < vec_len list.old }
    requires to { to < vec_len list.old }
    ensures { list.new.items ≡ move_index list.old.items from to }
{
    let item = list.remove(from);
    list.insert(to, item).unwrap();
}
