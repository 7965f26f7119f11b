//! MOVE and DELETE of many stories: the order is gone over once.
//!
//! Where there is no memory for it, the stories are moved or removed one by one, so neither takes memory for its result.
ghost use Rattle.std.specs.Prelude.{◌≡◌, ◌<◌, ◌≤◌, ◌+◌, ◌-◌, ◌++◌, List, [], None, length, take, drop, IsPermutation, IfOk, OnOk, OnErr};
ghost use Rattle.mos_edits.specs.KeyedLists.{lacking_place, first_missing, picked, put_before, without};
ghost use Rattle.mos_edits.specs.Orders.{Story, shape};
ghost use Rattle.mos_values.specs.Distinct.{story_ids};
ghost use Rattle.order_table.specs.Rows.{without_rows};
ghost use Rattle.element_action.specs.Targets.{brought, gathered};

use crate::gathering::gather;
use crate::level::Level;
use crate::seen::are_few;
use crate::story_edits::{move_stories, remove_stories};
use crate::target::{place_before, target_place};
use mos_fields::{NoMemory, OptId, OptIds};
use running_order::Order;
use std::alloc::Global;

// The storyID of the story at a place, added at the end of a list.
fn push_id(ids: &mut OptIds, order: &Order, i: usize) -> Result<(), NoMemory>
    requires { i < length order.now.stories }
    ensures { OnOk result (ids.new ++ drop (i + 1) (story_ids order.now.stories) ≡ ids.old ++ drop i (story_ids order.now.stories)) }
{
    match order.story(i) {
        Some(story) => ids.push(OptId::from_id(story.id.try_clone()?)),
        None => unreachable!(),
    }
}

// The storyIDs of an order. The only error is that memory runs out.
fn ids_of(alloc: Global, order: &Order) -> Result<OptIds, NoMemory>
    ensures { IfOk result (λ l. l ≡ story_ids order.now.stories) }
{
    let mut ids = OptIds::new(alloc);
    for i in 0..order.len() {
        push_id(&mut ids, order, i)?;
    }
    Ok(ids)
}

// Exchanges the story at a place with the one that has this storyID.
fn bring(order: &mut Order, at: usize, id: &OptId)
    requires { at < length order.old.stories }
    ensures { order.new ≡ record order.old { stories = brought shape.story_id at id.now order.old.stories } }
{
    match order.story_place(id) {
        Some(from) => order.swap_stories(at, from),
        None => {}
    }
}

// Brings the stories into the order in which their storyIDs stand here.
fn arrange(order: &mut Order, ids: &[OptId])
    requires { length ids.now ≤ length order.old.stories }
    ensures { (ys : List Story) → IsPermutation order.old.stories ys → story_ids ys ≡ ids.now → order.new ≡ record order.old { stories = ys } }
{
    for k in 0..ids.len() {
        order.has_distinct_stories();
        bring(order, k, &ids[k]);
    }
}

// Puts the sources together before a place, which may be the end.
fn gather_stories(
    alloc: Global,
    order: &mut Order,
    at: usize,
    sources: &[OptId],
) -> Result<(), NoMemory>
    requires within { at ≤ length order.old.stories }
    requires there { first_missing (story_ids order.old.stories) [] sources.now ≡ None }
    ensures ok { OnOk result (order.new ≡ record order.old { stories = gathered shape.story_id at sources.now order.old.stories }) }
    ensures err { OnErr result (order.new ≡ order.old) }
{
    order.has_distinct_stories();
    let ids = ids_of(alloc, order)?;
    let there = ids.as_slice();
    let list = gather(alloc, there, at, sources)?;
    let wanted = list.as_slice();
    arrange(order, wanted);
    Ok(())
}

// Moves many stories before the target, or to the end, at once.
fn move_at_once(
    alloc: Global,
    order: &mut Order,
    target: &OptId,
    sources: &[OptId],
) -> Result<(), NoMemory>
    requires apart { lacking_place (story_ids order.old.stories) sources.now target.now ≡ None }
    requires there { first_missing (story_ids order.old.stories) [] sources.now ≡ None }
    ensures ok { OnOk result (order.new ≡ record order.old { stories = put_before shape.story_id target.now (picked shape.story_id sources.now order.old.stories) (without shape.story_id sources.now order.old.stories) }) }
    ensures err { OnErr result (order.new ≡ order.old) }
{
    let at = place_before(order.len(), target_place(order, Level::Stories, target));
    gather_stories(alloc, order, at, sources)
}

/// Moves stories before the target, or to the end, in the order of the sources.
pub fn move_all(alloc: Global, order: &mut Order, target: &OptId, sources: &[OptId])
    requires apart { lacking_place (story_ids order.old.stories) sources.now target.now ≡ None }
    requires there { first_missing (story_ids order.old.stories) [] sources.now ≡ None }
    ensures { order.new ≡ record order.old { stories = put_before shape.story_id target.now (picked shape.story_id sources.now order.old.stories) (without shape.story_id sources.now order.old.stories) } }
{
    if are_few(sources) {
        move_stories(order, target, sources);
    } else {
        match move_at_once(alloc, order, target, sources) {
            Ok(()) => {}
            Err(_) => move_stories(order, target, sources),
        }
    }
}

// Removes many stories at once, and their scripts.
fn remove_at_once(alloc: Global, order: &mut Order, sources: &[OptId]) -> Result<(), NoMemory>
    requires { first_missing (story_ids order.old.stories) [] sources.now ≡ None }
    ensures ok { OnOk result (order.new ≡ record order.old { stories = without shape.story_id sources.now order.old.stories; scripts = without_rows sources.now order.old.scripts }) }
    ensures err { OnErr result (order.new ≡ order.old) }
{
    let end = order.len();
    gather_stories(alloc, order, end, sources)?;
    let left = order.len() - sources.len();
    order.truncate(left);
    Ok(())
}

/// Removes stories, and their scripts.
pub fn remove_all(alloc: Global, order: &mut Order, sources: &[OptId])
    requires { first_missing (story_ids order.old.stories) [] sources.now ≡ None }
    ensures { order.new ≡ record order.old { stories = without shape.story_id sources.now order.old.stories; scripts = without_rows sources.now order.old.scripts } }
{
    if are_few(sources) {
        remove_stories(order, sources);
    } else {
        match remove_at_once(alloc, order, sources) {
            Ok(()) => {}
            Err(_) => remove_stories(order, sources),
        }
    }
}
