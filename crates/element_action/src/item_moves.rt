//! MOVE and DELETE of many items of a story: the story is gone over once.
//!
//! Where there is no memory for it, the items are moved or removed one by one, so neither takes memory for its result.
ghost use Rattle.std.specs.Prelude.{◌≡◌, ◌<◌, ◌≤◌, ◌-◌, List, [], Some, None, length, take, IsPermutation, IfOk, OnOk, OnErr};
ghost use Rattle.mos_edits.specs.KeyedLists.{lacking_place, first_missing, picked, put_before, without};
ghost use Rattle.mos_edits.specs.Orders.{Item, shape};
ghost use Rattle.mos_values.specs.Distinct.{item_ids, story_ids};
ghost use Rattle.running_order.specs.Places.{place_of, items_at, edit_items};
ghost use Rattle.element_action.specs.declared.level.Level.TheVariants.{Items as items_in};
ghost use Rattle.element_action.specs.Levels.{level_ids, edit_story};
ghost use Rattle.element_action.specs.Targets.{brought, gathered};

use crate::gathering::gather;
use crate::item_edits::{item_count, move_items, remove_items};
use crate::level::Level;
use crate::seen::are_few;
use crate::sources::ids_of_items;
use crate::target::{place_before, target_place};
use mos_fields::{NoMemory, OptId, OptIds};
use running_order::Order;
use std::alloc::Global;

// The itemIDs of the story at a place. The only error is that memory runs out.
fn ids_of(alloc: Global, order: &Order, i: usize) -> Result<OptIds, NoMemory>
    requires { i < length order.now.stories }
    ensures { IfOk result (λ l. l ≡ item_ids (items_at order.now.stories i)) }
{
    match order.story(i) {
        Some(story) => ids_of_items(alloc, &story.items),
        None => unreachable!(),
    }
}

// Exchanges the item at a place with the one that has this itemID, in the story that stands at `i`.
fn bring(order: &mut Order, story: &OptId, i: usize, at: usize, id: &OptId)
    requires here { place_of story.now (story_ids order.old.stories) ≡ Some i }
    requires within { at < length (items_at order.old.stories i) }
    ensures { order.new ≡ record order.old { stories = edit_items order.old.stories i (brought shape.item_id at id.now) } }
{
    match order.item_place(story, id) {
        Some(from) => order.swap_items(i, at, from),
        None => {}
    }
}

// Brings the items of the story that stands at `i` into the order in which their itemIDs stand here.
fn arrange(order: &mut Order, story: &OptId, i: usize, ids: &[OptId])
    requires here { place_of story.now (story_ids order.old.stories) ≡ Some i }
    requires within { length ids.now ≤ length (items_at order.old.stories i) }
    ensures { (ys : List Item) → IsPermutation (items_at order.old.stories i) ys → item_ids ys ≡ ids.now → order.new ≡ record order.old { stories = edit_items order.old.stories i (λ old. ys) } }
{
    for k in 0..ids.len() {
        let _count = item_count(order, i);
        bring(order, story, i, k, &ids[k]);
    }
}

// Puts the sources together before a place, which may be the end, in the story that stands at `i`.
fn gather_items(
    alloc: Global,
    order: &mut Order,
    story: &OptId,
    i: usize,
    at: usize,
    sources: &[OptId],
) -> Result<(), NoMemory>
    requires here { place_of story.now (story_ids order.old.stories) ≡ Some i }
    requires within { at ≤ length (items_at order.old.stories i) }
    requires there { first_missing (item_ids (items_at order.old.stories i)) [] sources.now ≡ None }
    ensures ok { OnOk result (order.new ≡ record order.old { stories = edit_items order.old.stories i (gathered shape.item_id at sources.now) }) }
    ensures err { OnErr result (order.new ≡ order.old) }
{
    let _count = item_count(order, i);
    let ids = ids_of(alloc, order, i)?;
    let there = ids.as_slice();
    let list = gather(alloc, there, at, sources)?;
    let wanted = list.as_slice();
    arrange(order, story, i, wanted);
    Ok(())
}

// Removes so many items at the end of the story at a place.
fn drop_last(order: &mut Order, i: usize, count: usize)
    requires story { i < length order.old.stories }
    requires within { count ≤ length (items_at order.old.stories i) }
    ensures { order.new ≡ record order.old { stories = edit_items order.old.stories i (λ old. take (length old - count) old) } }
{
    let end = item_count(order, i);
    for k in 0..count {
        order.remove_item(i, end - 1 - k);
    }
}

// Moves many items before the target, or to the end, at once.
fn move_at_once(
    alloc: Global,
    order: &mut Order,
    story: &OptId,
    target: &OptId,
    sources: &[OptId],
) -> Result<(), NoMemory>
    requires apart { lacking_place (level_ids (items_in story) order.old.stories) sources.now target.now ≡ None }
    requires there { first_missing (level_ids (items_in story) order.old.stories) [] sources.now ≡ None }
    ensures ok { OnOk result (order.new ≡ record order.old { stories = edit_story story.now (λ old. put_before shape.item_id target.now (picked shape.item_id sources.now old) (without shape.item_id sources.now old)) order.old.stories }) }
    ensures err { OnErr result (order.new ≡ order.old) }
{
    match order.story_place(story) {
        Some(i) => {
            let end = item_count(order, i);
            let at = place_before(end, target_place(order, Level::Items(story), target));
            gather_items(alloc, order, story, i, at, sources)
        }
        None => Ok(()),
    }
}

/// Moves items before the target, or to the end, in the order of the sources. Where the story isn't there, nothing
/// changes.
pub fn move_all(alloc: Global, order: &mut Order, story: &OptId, target: &OptId, sources: &[OptId])
    requires apart { lacking_place (level_ids (items_in story) order.old.stories) sources.now target.now ≡ None }
    requires there { first_missing (level_ids (items_in story) order.old.stories) [] sources.now ≡ None }
    ensures { order.new ≡ record order.old { stories = edit_story story.now (λ old. put_before shape.item_id target.now (picked shape.item_id sources.now old) (without shape.item_id sources.now old)) order.old.stories } }
{
    if are_few(sources) {
        move_items(order, story, target, sources);
    } else {
        match move_at_once(alloc, order, story, target, sources) {
            Ok(()) => {}
            Err(_) => move_items(order, story, target, sources),
        }
    }
}

// Removes many items of the story that stands at `i`.
fn remove_at(
    alloc: Global,
    order: &mut Order,
    story: &OptId,
    i: usize,
    sources: &[OptId],
) -> Result<(), NoMemory>
    requires here { place_of story.now (story_ids order.old.stories) ≡ Some i }
    requires there { first_missing (item_ids (items_at order.old.stories i)) [] sources.now ≡ None }
    ensures ok { OnOk result (order.new ≡ record order.old { stories = edit_items order.old.stories i (without shape.item_id sources.now) }) }
    ensures err { OnErr result (order.new ≡ order.old) }
{
    let end = item_count(order, i);
    let count = sources.len();
    gather_items(alloc, order, story, i, end, sources)?;
    drop_last(order, i, count);
    Ok(())
}

// Removes many items at once.
fn remove_at_once(
    alloc: Global,
    order: &mut Order,
    story: &OptId,
    sources: &[OptId],
) -> Result<(), NoMemory>
    requires { first_missing (level_ids (items_in story) order.old.stories) [] sources.now ≡ None }
    ensures ok { OnOk result (order.new ≡ record order.old { stories = edit_story story.now (without shape.item_id sources.now) order.old.stories }) }
    ensures err { OnErr result (order.new ≡ order.old) }
{
    match order.story_place(story) {
        Some(i) => remove_at(alloc, order, story, i, sources),
        None => Ok(()),
    }
}

/// Removes items. Where the story isn't there, nothing changes.
pub fn remove_all(alloc: Global, order: &mut Order, story: &OptId, sources: &[OptId])
    requires { first_missing (level_ids (items_in story) order.old.stories) [] sources.now ≡ None }
    ensures { order.new ≡ record order.old { stories = edit_story story.now (without shape.item_id sources.now) order.old.stories } }
{
    if are_few(sources) {
        remove_items(order, story, sources);
    } else {
        match remove_at_once(alloc, order, story, sources) {
            Ok(()) => {}
            Err(_) => remove_items(order, story, sources),
        }
    }
}
