//! Edits of the items of a story, by their IDs. Where the story isn't there, nothing changes.
//!
//! Only what puts items in takes memory. Moved and removed are items one by one; of many at once see `item_moves`.
ghost use Rattle.std.specs.Prelude.{◌≡◌, ◌<◌, [], ◌∷◌, Some, None, length, OnOk, OnErr};
ghost use Rattle.mos_edits.specs.KeyedLists.{first_repeated, put_before, put_for, without, exchanged};
ghost use Rattle.mos_edits.specs.Orders.{shape};
ghost use Rattle.mos_values.specs.Distinct.{AreDistinct, item_ids};
ghost use Rattle.running_order.specs.Places.{items_at};
ghost use Rattle.element_action.specs.declared.level.Level.TheVariants.{Items as items_in};
ghost use Rattle.element_action.specs.Levels.{level_ids, beside, edit_story};
ghost use Rattle.element_action.specs.Targets.{moved, moved_all};

use crate::level::Level;
use crate::target::{place_after_move, place_before, target_place};
use mos_fields::{NoMemory, OptId};
use mos_values::Items;
use running_order::Order;

/// How many items the story at a place has. No two of them have the same ID.
pub fn item_count(order: &Order, story: usize) -> usize
    requires { story < length order.now.stories }
    ensures count { result ≡ length (items_at order.now.stories story) }
    ensures distinct { AreDistinct (item_ids (items_at order.now.stories story)) }
{
    match order.story(story) {
        Some(story) => {
            story.has_distinct_items();
            story.items.len()
        }
        None => unreachable!(),
    }
}

/// Puts copies of items in before the target, or at the end. Where memory runs out, the order stays as it was.
pub fn put_items(
    order: &mut Order,
    story: &OptId,
    target: &OptId,
    items: &Items,
) -> Result<(), NoMemory>
    requires { first_repeated (level_ids (items_in story) order.old.stories) [] (item_ids items.now) ≡ None }
    ensures ok { OnOk result (order.new ≡ record order.old { stories = edit_story story.now (put_before shape.item_id target.now items.now) order.old.stories }) }
    ensures err { OnErr result (order.new ≡ order.old) }
{
    match order.story_place(story) {
        Some(i) => {
            let end = item_count(order, i);
            let at = place_before(end, target_place(order, Level::Items(story), target));
            order.insert_items(i, at, items)
        }
        None => Ok(()),
    }
}

/// Puts copies of items in place of the target. Where memory runs out, the order stays as it was.
pub fn put_items_for(
    order: &mut Order,
    story: &OptId,
    target: &OptId,
    items: &Items,
) -> Result<(), NoMemory>
    requires { first_repeated (beside (Some target.now) (level_ids (items_in story) order.old.stories)) [] (item_ids items.now) ≡ None }
    ensures ok { OnOk result (order.new ≡ record order.old { stories = edit_story story.now (put_for shape.item_id target.now items.now) order.old.stories }) }
    ensures err { OnErr result (order.new ≡ order.old) }
{
    match order.story_place(story) {
        Some(i) => match order.item_place(story, target) {
            Some(at) => {
                let _count = item_count(order, i);
                order.replace_item(i, at, items)
            }
            None => Ok(()),
        },
        None => Ok(()),
    }
}

// Moves one item before the target, or to the end.
fn move_item(order: &mut Order, story: &OptId, target: &OptId, id: &OptId)
    ensures { order.new ≡ record order.old { stories = edit_story story.now (moved shape.item_id target.now id.now) order.old.stories } }
{
    match order.story_place(story) {
        Some(i) => match order.item_place(story, id) {
            Some(from) => {
                let end = item_count(order, i);
                let target = target_place(order, Level::Items(story), target);
                order.move_item(i, from, place_after_move(end, from, target));
            }
            None => {}
        },
        None => {}
    }
}

/// Moves items, one after another, before the target, or to the end.
pub fn move_items(order: &mut Order, story: &OptId, target: &OptId, ids: &[OptId])
    ensures { order.new ≡ record order.old { stories = edit_story story.now (moved_all shape.item_id target.now ids.now) order.old.stories } }
{
    for id in ids {
        move_item(order, story, target, id);
    }
}

// Removes one item.
fn remove_item(order: &mut Order, story: &OptId, id: &OptId)
    ensures { order.new ≡ record order.old { stories = edit_story story.now (without shape.item_id (id.now ∷ [])) order.old.stories } }
{
    match order.story_place(story) {
        Some(i) => match order.item_place(story, id) {
            Some(at) => {
                let _count = item_count(order, i);
                order.remove_item(i, at);
            }
            None => {}
        },
        None => {}
    }
}

/// Removes items.
pub fn remove_items(order: &mut Order, story: &OptId, ids: &[OptId])
    ensures { order.new ≡ record order.old { stories = edit_story story.now (without shape.item_id ids.now) order.old.stories } }
{
    for id in ids {
        remove_item(order, story, id);
    }
}

/// Exchanges two items.
pub fn swap_items(order: &mut Order, story: &OptId, first: &OptId, second: &OptId)
    ensures { order.new ≡ record order.old { stories = edit_story story.now (exchanged shape.item_id first.now second.now) order.old.stories } }
{
    match order.story_place(story) {
        Some(i) => match order.item_place(story, first) {
            Some(a) => match order.item_place(story, second) {
                Some(b) => {
                    let _count = item_count(order, i);
                    order.swap_items(i, a, b);
                }
                None => {}
            },
            None => {}
        },
        None => {}
    }
}
