//! Edits of the stories of an order, by their IDs.
//!
//! Only what puts stories in takes memory.
ghost use Rattle.std.specs.Prelude.{◌≡◌, [], ◌∷◌, ◌++◌, Some, None, OnOk, OnErr, true};
ghost use Rattle.mos_edits.specs.Texts.{has_id};
ghost use Rattle.mos_edits.specs.KeyedLists.{first_missing, first_repeated, put_before, put_for, without, exchanged};
ghost use Rattle.mos_edits.specs.Orders.{shape};
ghost use Rattle.mos_values.specs.Distinct.{story_ids};
ghost use Rattle.order_table.specs.Rows.{without_rows};
ghost use Rattle.element_action.specs.Levels.{beside};
ghost use Rattle.element_action.specs.Targets.{moved, moved_all};

use crate::level::Level;
use crate::target::{place_after_move, place_before, target_place};
use mos_fields::{NoMemory, OptId};
use mos_values::Stories;
use running_order::Order;

/// Puts copies of stories in before the target, or at the end. Where memory runs out, the order stays as it was.
pub fn put_stories(order: &mut Order, target: &OptId, stories: &Stories) -> Result<(), NoMemory>
    requires { first_repeated (story_ids order.old.stories) [] (story_ids stories.now) ≡ None }
    ensures ok { OnOk result (order.new ≡ record order.old { stories = put_before shape.story_id target.now stories.now order.old.stories }) }
    ensures err { OnErr result (order.new ≡ order.old) }
{
    order.has_distinct_stories();
    let at = place_before(order.len(), target_place(order, Level::Stories, target));
    order.insert_stories(at, stories)
}

/// Puts copies of stories in place of the target, whose script goes with it. Where memory runs out, the order stays as it was.
pub fn put_stories_for(order: &mut Order, target: &OptId, stories: &Stories) -> Result<(), NoMemory>
    requires there { has_id target.now (story_ids order.old.stories) ≡ true }
    requires beside { first_repeated (beside (Some target.now) (story_ids order.old.stories)) [] (story_ids stories.now) ≡ None }
    ensures ok { OnOk result (order.new ≡ record order.old { stories = put_for shape.story_id target.now stories.now order.old.stories; scripts = without_rows (target.now ∷ []) order.old.scripts }) }
    ensures err { OnErr result (order.new ≡ order.old) }
{
    order.has_distinct_stories();
    match order.story_place(target) {
        Some(at) => order.replace_story(at, stories),
        None => unreachable!(),
    }
}

// Moves one story before the target, or to the end.
fn move_story(order: &mut Order, target: &OptId, id: &OptId)
    ensures { order.new ≡ record order.old { stories = moved shape.story_id target.now id.now order.old.stories } }
{
    order.has_distinct_stories();
    match order.story_place(id) {
        Some(from) => {
            let target = target_place(order, Level::Stories, target);
            order.move_story(from, place_after_move(order.len(), from, target));
        }
        None => {}
    }
}

/// Moves stories, one after another, before the target, or to the end.
pub fn move_stories(order: &mut Order, target: &OptId, ids: &[OptId])
    ensures { order.new ≡ record order.old { stories = moved_all shape.story_id target.now ids.now order.old.stories } }
{
    for id in ids {
        move_story(order, target, id);
    }
}

// Removes one story, and its script.
fn remove_story(order: &mut Order, id: &OptId)
    requires { has_id id.now (story_ids order.old.stories) ≡ true }
    ensures { order.new ≡ record order.old { stories = without shape.story_id (id.now ∷ []) order.old.stories; scripts = without_rows (id.now ∷ []) order.old.scripts } }
{
    order.has_distinct_stories();
    match order.story_place(id) {
        Some(at) => order.remove_story(at),
        None => unreachable!(),
    }
}

/// Removes stories, and their scripts.
pub fn remove_stories(order: &mut Order, ids: &[OptId])
    requires { first_missing (story_ids order.old.stories) [] ids.now ≡ None }
    ensures { order.new ≡ record order.old { stories = without shape.story_id ids.now order.old.stories; scripts = without_rows ids.now order.old.scripts } }
{
    for id in ids {
        remove_story(order, id);
    }
}

/// Exchanges two stories.
pub fn swap_stories(order: &mut Order, first: &OptId, second: &OptId)
    ensures { order.new ≡ record order.old { stories = exchanged shape.story_id first.now second.now order.old.stories } }
{
    order.has_distinct_stories();
    match order.story_place(first) {
        Some(a) => match order.story_place(second) {
            Some(b) => order.swap_stories(a, b),
            None => {}
        },
        None => {}
    }
}
