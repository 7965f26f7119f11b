//! The five forms of action on stories.
ghost use Rattle.std.specs.Prelude.{[], ◌∷◌, true, false};
ghost use Rattle.mos_edits.specs.KeyedLists.ListAction.{Insert, Replace, Move, Delete, Swap};
ghost use Rattle.mos_edits.specs.Actions.{act as act_of};
ghost use Rattle.mos_edits.specs.Actions.Action.{OnStories};
ghost use Rattle.mos_edits.specs.Orders.{shape};
ghost use Rattle.element_action.specs.Answers.{IsAnswer};

use crate::fault::{ActFault, told};
use crate::level::Level;
use crate::search::{
    find_delete_fault, find_insert_fault, find_move_fault, find_replace_fault, find_swap_fault,
};
use crate::sources::ids_of_stories;
use crate::story_edits::{put_stories, put_stories_for, swap_stories};
use crate::story_moves::{move_all, remove_all};
use mos_fields::{OptId, OptIds};
use mos_values::Stories;
use running_order::Order;
use std::alloc::Global;

/// Puts stories before the target.
pub fn insert(
    alloc: Global,
    order: &mut Order,
    target: &OptId,
    sources: &Stories,
) -> Result<(), ActFault>
    ensures { IsAnswer true [] (act_of shape (OnStories (Insert target.now sources.now)) order.old.stories) order.old order.new result }
{
    let ids = ids_of_stories(alloc, sources)?;
    match find_insert_fault(alloc, order, Level::Stories, target, ids.as_slice()) {
        Some(fault) => Err(told(fault)),
        None => Ok(put_stories(order, target, sources)?),
    }
}

/// Puts stories in place of the target.
pub fn replace(
    alloc: Global,
    order: &mut Order,
    target: &OptId,
    sources: &Stories,
) -> Result<(), ActFault>
    ensures { IsAnswer true (target.now ∷ []) (act_of shape (OnStories (Replace target.now sources.now)) order.old.stories) order.old order.new result }
{
    let ids = ids_of_stories(alloc, sources)?;
    match find_replace_fault(alloc, order, Level::Stories, target, ids.as_slice()) {
        Some(fault) => Err(told(fault)),
        None => Ok(put_stories_for(order, target, sources)?),
    }
}

/// Moves stories before the target.
pub fn shift<'a>(
    alloc: Global,
    order: &mut Order,
    target: &'a OptId,
    sources: &'a OptIds,
) -> Result<(), ActFault>
    ensures { IsAnswer false [] (act_of shape (OnStories (Move target.now sources.now)) order.old.stories) order.old order.new result }
{
    let ids = sources.as_slice();
    match find_move_fault(alloc, order, Level::Stories, target, ids) {
        Some(fault) => Err(told(fault)),
        None => {
            move_all(alloc, order, target, ids);
            Ok(())
        }
    }
}

/// Removes stories.
pub fn delete(alloc: Global, order: &mut Order, sources: &OptIds) -> Result<(), ActFault>
    ensures { IsAnswer false sources.now (act_of shape (OnStories (Delete sources.now)) order.old.stories) order.old order.new result }
{
    let ids = sources.as_slice();
    match find_delete_fault(alloc, order, Level::Stories, ids) {
        Some(fault) => Err(told(fault)),
        None => {
            remove_all(alloc, order, ids);
            Ok(())
        }
    }
}

/// Exchanges two stories.
pub fn swap<'a>(order: &mut Order, first: &'a OptId, second: &'a OptId) -> Result<(), ActFault>
    ensures { IsAnswer false [] (act_of shape (OnStories (Swap first.now second.now)) order.old.stories) order.old order.new result }
{
    match find_swap_fault(order, Level::Stories, first, second) {
        Some(fault) => Err(told(fault)),
        None => {
            swap_stories(order, first, second);
            Ok(())
        }
    }
}
