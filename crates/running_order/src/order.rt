//! A running order.
ghost use Rattle.std.specs.Prelude.{◌≡◌, ◌<◌, ◌≤◌, [], ◌∷◌, ◌++◌, length, take, drop, remove, swap, slice_get, if◌then◌else◌, IfOk, OnOk, OnErr, IfSome};
ghost use Rattle.std.specs.Option.{option_copied};
ghost use Rattle.indexmap.specs.IndexMap.{move_index};
ghost use Rattle.mos_edits.specs.Texts.{has_id};
ghost use Rattle.mos_edits.specs.Orders.{bare, order_of, patched};
ghost use Rattle.mos_edits.specs.Scripts.{script_of};
ghost use Rattle.mos_edits.specs.Rows.{put_row};
ghost use Rattle.order_table.specs.Rows.{without_rows};
ghost use Rattle.mos_values.specs.Distinct.{AreDistinct, item_ids, story_ids};
ghost use Rattle.mos_values.specs.Units.{capped, list_events, units_in};
ghost use Rattle.mos_values.specs.Views.{header_events};
ghost use Rattle.running_order.specs.Places.{place_of, put_in, put_over, ids_at, items_at, edit_items, item_place_of};

use crate::header::put_patch;
use crate::scripts_left::remove_scripts_from;
use crate::shared_script::SharedScript;
use crate::sizes::{list_size, plus, size_after};
use crate::story_table::{StoryTable, table_of};
use mos_fields::{Id, NoMemory, OptId, pair_ok};
use mos_values::{
    Boxed, Header, HeaderPatch, Items, OrderBody, Stories, Story, StorySend, TryClone,
    header_units, items_units,
};
use order_table::OrderTable;
use std::alloc::Global;
use std::marker::Model;

/// A running order: a header, stories with distinct storyIDs, each with items of distinct itemIDs, and the scripts of those
/// stories that have one.
///
/// Contracts see it as the header, the list of the stories, and the rows of the scripts, by storyID. Stories, items and
/// scripts are found by their IDs in tables, so a look-up doesn't walk the order and takes no memory. Places count from 0.
/// The size is kept, and each edit changes it by what it touches. Copies of an order share their scripts.
#[derive(Drop)]
pub struct Order {
    header: Header,
    stories: StoryTable,
    scripts: OrderTable<SharedScript>,
    header_units: u64,
    stories_units: u64,
}

impl Model for Order {
    ghost use Rattle.std.specs.Prelude.{◌≡◌};
    ghost use Rattle.mos_edits.specs.Orders.{Order as Value_};
    ghost use Rattle.mos_values.specs.Units.{capped, units_in};
    ghost use Rattle.mos_values.specs.Views.{header_events};
    ghost use Rattle.running_order.specs.Sizes.{stories_size};

    ghost Value = { Value_ };

    ghost view = { λ o. record { header = o.header; stories = o.stories; scripts = o.scripts } };

    ghost invariant = { λ o. (o.header_units ≡ capped (units_in (header_events o.header))) × (o.stories_units ≡ capped (stories_size o.stories)) };
}

impl Order {
    /// The order of a body, without scripts, in memory of its own. The only error is that memory runs out.
    pub fn from_body(alloc: Global, b: &OrderBody) -> Result<Order, NoMemory>
        ensures { IfOk result (λ o. o ≡ order_of b.now) }
    {
        b.has_distinct_stories();
        let (header, stories) = pair_ok(b.header.try_clone(), table_of(alloc, &b.stories))?;
        let header_units = header_units(&header);
        let stories_units = stories.units();
        Ok(Order {
            header,
            stories,
            scripts: OrderTable::new(alloc),
            header_units,
            stories_units,
        })
    }

    /// The order as a body, which carries no scripts, in memory of its own. The only error is that memory runs out.
    pub fn to_body(&self) -> Result<OrderBody, NoMemory>
        ensures { IfOk result (λ b. b ≡ bare self.now) }
    {
        let (header, stories) = pair_ok(self.header.try_clone(), self.stories.to_stories())?;
        self.stories.has_distinct_ids();
        Ok(OrderBody { header, stories })
    }

    /// The same order again, in memory of its own: the header and each story are copied once, and the sizes aren't counted
    /// again. The scripts are shared. The only error is that memory runs out.
    pub fn try_clone(&self) -> Result<Order, NoMemory>
        ensures { IfOk result (λ o. o ≡ self.now) }
    {
        let ((header, stories), scripts) = pair_ok(
            pair_ok(self.header.try_clone(), self.stories.try_clone()),
            self.scripts.try_clone(),
        )?;
        Ok(Order {
            header,
            stories,
            scripts,
            header_units: self.header_units,
            stories_units: self.stories_units,
        })
    }

    /// The header.
    pub fn header(&self) -> &Header
        ensures { result.now ≡ self.now.header }
    {
        &self.header
    }

    /// Puts each field that the patch gives in place of the old one: a field that is absent and a list that is empty
    /// leave the old one, and the roID stays. Where memory runs out, the order stays as it was.
    pub fn apply_header(&mut self, p: &HeaderPatch) -> Result<(), NoMemory>
        ensures ok { OnOk result (self.new ≡ record self.old { header = patched (p.now) self.old.header }) }
        ensures err { OnErr result (self.new ≡ self.old) }
    {
        let patch = p.try_clone()?;
        put_patch(&mut self.header, patch);
        self.header_units = header_units(&self.header);
        Ok(())
    }

    /// How many stories there are.
    pub fn len(&self) -> usize
        ensures { result ≡ length self.now.stories }
    {
        self.stories.len()
    }

    /// The story at a place; `None` from the end on.
    pub fn story(&self, i: usize) -> Option<&Story>
        ensures { option_copied result ≡ slice_get self.now.stories i }
    {
        let entry = self.stories.entry(i)?;
        Some(entry.story())
    }

    /// The law of the type: no two stories have the same storyID.
    pub fn has_distinct_stories(&self)
        ensures { AreDistinct (story_ids self.now.stories) }
    {
        self.stories.has_distinct_ids();
    }

    /// The place of the story with this storyID. No story has an empty one.
    pub fn story_place(&self, id: &OptId) -> Option<usize>
        ensures place { result ≡ place_of id.now (story_ids self.now.stories) }
        ensures within { IfSome result (λ i. i < length self.now.stories) }
    {
        self.stories.place(id.text())
    }

    /// Whether a story has this storyID. Takes no memory.
    pub fn has_story(&self, id: &Id) -> bool
        ensures { result ≡ has_id id.now (story_ids self.now.stories) }
    {
        self.stories.place(id.text()).is_some()
    }

    /// The place of the item with this itemID in the story with this storyID.
    pub fn item_place(&self, story: &OptId, item: &OptId) -> Option<usize>
        ensures place { result ≡ item_place_of self.now.stories story.now item.now }
    {
        let i = self.stories.place(story.text())?;
        let entry = self.stories.entry(i)?;
        entry.item_place(item.text())
    }

    /// The script of the story with this storyID; `None` where it has none. Takes no memory.
    pub fn script(&self, story: &OptId) -> Option<&StorySend>
        ensures { option_copied result ≡ script_of self.now story.now }
    {
        let shared = self.scripts.find_text(story.text())?;
        Some(shared.script())
    }

    /// Puts a copy of a script on its story in place of a former one, and tells whether the story is there. Where it isn't, or
    /// memory runs out, the order stays as it was.
    pub fn set_script(&mut self, s: &StorySend) -> Result<bool, NoMemory>
        ensures there { IfOk result (λ t. t ≡ has_id s.now.story (story_ids self.old.stories)) }
        ensures ok { IfOk result (λ t. self.new ≡ (if t then record self.old { scripts = put_row s.now.story s.now self.old.scripts } else self.old)) }
        ensures err { OnErr result (self.new ≡ self.old) }
    {
        if self.has_story(&s.story) {
            let shared = SharedScript::of(self.stories.allocator(), s)?;
            self.scripts.put(&s.story, shared)?;
            Ok(true)
        } else {
            Ok(false)
        }
    }

    /// Puts a script on its story in place of a former one, as `set_script` does, but shares it and copies nothing.
    pub fn share_script(&mut self, script: &Boxed<StorySend>) -> Result<bool, NoMemory>
        ensures there { IfOk result (λ t. t ≡ has_id script.now.story (story_ids self.old.stories)) }
        ensures ok { IfOk result (λ t. self.new ≡ (if t then record self.old { scripts = put_row script.now.story script.now self.old.scripts } else self.old)) }
        ensures err { OnErr result (self.new ≡ self.old) }
    {
        let story = &script.as_ref().story;
        if !self.has_story(story) {
            return Ok(false);
        }
        self.scripts.put(story, SharedScript::sharing(script)?)?;
        Ok(true)
    }

    /// The code units of the canonical roList element of the order, 2^64 - 1 where that is smaller.
    pub fn size_units(&self) -> u64
        ensures { result ≡ capped (units_in (list_events (bare self.now))) }
    {
        list_size(self.header_units, self.stories_units)
    }

    /// Puts copies of stories in before a place, which may be the end. Where memory runs out, the order stays as it was.
    pub fn insert_stories(&mut self, at: usize, s: &Stories) -> Result<(), NoMemory>
        requires within { at ≤ length self.old.stories }
        requires distinct { AreDistinct (story_ids self.old.stories ++ story_ids s.now) }
        ensures ok { OnOk result (self.new ≡ record self.old { stories = put_in self.old.stories at s.now }) }
        ensures err { OnErr result (self.new ≡ self.old) }
    {
        let new = table_of(self.stories.allocator(), s)?;
        let come = new.units();
        self.stories.insert_all(at, new)?;
        self.stories_units = plus(self.stories_units, come);
        Ok(())
    }

    /// Puts copies of stories in place of the one that stands there, whose script goes with it. Where memory runs out, the order
    /// stays as it was.
    pub fn replace_story(&mut self, at: usize, s: &Stories) -> Result<(), NoMemory>
        requires within { at < length self.old.stories }
        requires distinct { AreDistinct (story_ids (remove self.old.stories at) ++ story_ids s.now) }
        ensures ok { OnOk result (self.new ≡ record self.old { stories = put_over self.old.stories at s.now; scripts = without_rows (ids_at self.old.stories at) self.old.scripts }) }
        ensures err { OnErr result (self.new ≡ self.old) }
    {
        let new = table_of(self.stories.allocator(), s)?;
        let come = new.units();
        let gone = self.stories.story_units(at);
        let id = id_at(&self.stories, at)?;
        self.stories.replace(at, new)?;
        self.scripts.remove(&id);
        self.stories_units = size_after(self.stories_units, gone, come, &self.stories);
        Ok(())
    }

    /// Takes out the story at `from`, and puts it back so that it stands at `to`. Takes no memory.
    pub fn move_story(&mut self, from: usize, to: usize)
        requires from { from < length self.old.stories }
        requires to { to < length self.old.stories }
        ensures { self.new ≡ record self.old { stories = move_index self.old.stories from to } }
    {
        self.stories.move_to(from, to);
    }

    /// Removes the story at this place, and its script. Takes no memory.
    pub fn remove_story(&mut self, at: usize)
        requires { at < length self.old.stories }
        ensures { self.new ≡ record self.old { stories = remove self.old.stories at; scripts = without_rows (ids_at self.old.stories at) self.old.scripts } }
    {
        remove_script(&mut self.scripts, &self.stories, at);
        self.take_out(at);
    }

    // Removes the story at this place, and no script.
    fn take_out(&mut self, at: usize)
        requires { at < length self.old.stories }
        ensures { self.new ≡ record self.old { stories = remove self.old.stories at } }
    {
        let gone = self.stories.story_units(at);
        self.stories.remove(at);
        self.stories_units = size_after(self.stories_units, gone, 0, &self.stories);
    }

    // Removes the stories from a place on, and no script.
    fn cut(&mut self, left: usize)
        requires { left ≤ length self.old.stories }
        ensures { self.new ≡ record self.old { stories = take left self.old.stories } }
    {
        let end = self.len();
        for k in 0..end - left {
            self.take_out(end - 1 - k);
        }
    }

    /// Removes the stories from a place on, and their scripts: these are gone over once. Takes no memory.
    pub fn truncate(&mut self, left: usize)
        requires { left ≤ length self.old.stories }
        ensures { self.new ≡ record self.old { stories = take left self.old.stories; scripts = without_rows (story_ids (drop left self.old.stories)) self.old.scripts } }
    {
        remove_scripts_from(&mut self.scripts, &self.stories, left);
        self.cut(left);
    }

    /// Exchanges two stories. Takes no memory.
    pub fn swap_stories(&mut self, a: usize, b: usize)
        requires a { a < length self.old.stories }
        requires b { b < length self.old.stories }
        ensures { self.new ≡ record self.old { stories = swap self.old.stories a b } }
    {
        self.stories.swap(a, b);
    }

    /// Puts copies of items in before a place, which may be the end, in the story at the place `story`. Where memory
    /// runs out, the order stays as it was.
    pub fn insert_items(&mut self, story: usize, at: usize, i: &Items) -> Result<(), NoMemory>
        requires story { story < length self.old.stories }
        requires within { at ≤ length (items_at self.old.stories story) }
        requires distinct { AreDistinct (item_ids (items_at self.old.stories story ++ i.now)) }
        ensures ok { OnOk result (self.new ≡ record self.old { stories = edit_items self.old.stories story (λ old. put_in old at i.now) }) }
        ensures err { OnErr result (self.new ≡ self.old) }
    {
        self.stories.insert_items(story, at, i)?;
        self.stories_units = plus(self.stories_units, items_units(i.as_slice()));
        Ok(())
    }

    /// Puts copies of items in place of the one that stands there, in the story at the place `story`. Where memory runs
    /// out, the order stays as it was.
    pub fn replace_item(&mut self, story: usize, at: usize, i: &Items) -> Result<(), NoMemory>
        requires story { story < length self.old.stories }
        requires within { at < length (items_at self.old.stories story) }
        requires distinct { AreDistinct (item_ids (remove (items_at self.old.stories story) at ++ i.now)) }
        ensures ok { OnOk result (self.new ≡ record self.old { stories = edit_items self.old.stories story (λ old. put_over old at i.now) }) }
        ensures err { OnErr result (self.new ≡ self.old) }
    {
        let gone = self.stories.item_units(story, at);
        let come = items_units(i.as_slice());
        self.stories.replace_item(story, at, i)?;
        self.stories_units = size_after(self.stories_units, gone, come, &self.stories);
        Ok(())
    }

    /// Takes out the item at `from` of the story at the place `story`, and puts it back so that it stands at `to`. Takes
    /// no memory.
    pub fn move_item(&mut self, story: usize, from: usize, to: usize)
        requires story { story < length self.old.stories }
        requires from { from < length (items_at self.old.stories story) }
        requires to { to < length (items_at self.old.stories story) }
        ensures { self.new ≡ record self.old { stories = edit_items self.old.stories story (λ old. move_index old from to) } }
    {
        self.stories.move_item(story, from, to);
    }

    /// Removes an item of the story at the place `story`. Takes no memory.
    pub fn remove_item(&mut self, story: usize, at: usize)
        requires story { story < length self.old.stories }
        requires within { at < length (items_at self.old.stories story) }
        ensures { self.new ≡ record self.old { stories = edit_items self.old.stories story (λ old. remove old at) } }
    {
        let gone = self.stories.item_units(story, at);
        self.stories.remove_item(story, at);
        self.stories_units = size_after(self.stories_units, gone, 0, &self.stories);
    }

    /// Exchanges two items of the story at the place `story`. Takes no memory.
    pub fn swap_items(&mut self, story: usize, a: usize, b: usize)
        requires story { story < length self.old.stories }
        requires a { a < length (items_at self.old.stories story) }
        requires b { b < length (items_at self.old.stories story) }
        ensures { self.new ≡ record self.old { stories = edit_items self.old.stories story (λ old. swap old a b) } }
    {
        self.stories.swap_items(story, a, b);
    }
}

// A copy of the storyID of the story at a place. The only error is that memory runs out.
fn id_at(stories: &StoryTable, at: usize) -> Result<Id, NoMemory>
    requires { at < length stories.now }
    ensures { IfOk result (λ id. ids_at stories.now at ≡ id ∷ []) }
{
    match stories.entry(at) {
        Some(entry) => Ok(entry.story().id.try_clone()?),
        None => unreachable!(),
    }
}

// Removes the script of the story at a place, where one stands there.
fn remove_script(scripts: &mut OrderTable<SharedScript>, stories: &StoryTable, at: usize)
    ensures { scripts.new ≡ without_rows (ids_at stories.now at) scripts.old }
{
    match stories.entry(at) {
        Some(entry) => scripts.remove(&entry.story().id),
        None => {}
    }
}
