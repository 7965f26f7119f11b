//! The five forms of action on the items of a story.
ghost use Rattle.std.specs.Prelude.{[], true, false};
ghost use Rattle.mos_edits.specs.KeyedLists.ListAction.{Insert, Replace, Move, Delete, Swap};
ghost use Rattle.mos_edits.specs.Actions.{act as act_of};
ghost use Rattle.mos_edits.specs.Actions.Action.{OnItems};
ghost use Rattle.mos_edits.specs.Orders.{shape};
ghost use Rattle.element_action.specs.Answers.{IsAnswer};

use crate::fault::{ActFault, told};
use crate::item_edits::{put_items, put_items_for, swap_items};
use crate::item_moves::{move_all, remove_all};
use crate::level::Level;
use crate::search::{
    find_delete_fault, find_insert_fault, find_move_fault, find_replace_fault, find_swap_fault,
};
use crate::sources::ids_of_items;
use mos_fields::{OptId, OptIds};
use mos_values::Items;
use running_order::Order;
use std::alloc::Global;

/// Puts items before the target.
pub fn insert(
    alloc: Global,
    order: &mut Order,
    story: &OptId,
    target: &OptId,
    sources: &Items,
) -> Result<(), ActFault>
    ensures { IsAnswer true [] (act_of shape (OnItems story.now (Insert target.now sources.now)) order.old.stories) order.old order.new result }
{
    let ids = ids_of_items(alloc, sources)?;
    match find_insert_fault(alloc, order, Level::Items(story), target, ids.as_slice()) {
        Some(fault) => Err(told(fault)),
        None => Ok(put_items(order, story, target, sources)?),
    }
}

/// Puts items in place of the target.
pub fn replace(
    alloc: Global,
    order: &mut Order,
    story: &OptId,
    target: &OptId,
    sources: &Items,
) -> Result<(), ActFault>
    ensures { IsAnswer true [] (act_of shape (OnItems story.now (Replace target.now sources.now)) order.old.stories) order.old order.new result }
{
    let ids = ids_of_items(alloc, sources)?;
    match find_replace_fault(alloc, order, Level::Items(story), target, ids.as_slice()) {
        Some(fault) => Err(told(fault)),
        None => Ok(put_items_for(order, story, target, sources)?),
    }
}

/// Moves items before the target.
pub fn shift<'a>(
    alloc: Global,
    order: &mut Order,
    story: &'a OptId,
    target: &'a OptId,
    sources: &'a OptIds,
) -> Result<(), ActFault>
    ensures { IsAnswer false [] (act_of shape (OnItems story.now (Move target.now sources.now)) order.old.stories) order.old order.new result }
{
    let ids = sources.as_slice();
    match find_move_fault(alloc, order, Level::Items(story), target, ids) {
        Some(fault) => Err(told(fault)),
        None => {
            move_all(alloc, order, story, target, ids);
            Ok(())
        }
    }
}

/// Removes items.
pub fn delete<'a>(
    alloc: Global,
    order: &mut Order,
    story: &'a OptId,
    sources: &'a OptIds,
) -> Result<(), ActFault>
    ensures { IsAnswer false [] (act_of shape (OnItems story.now (Delete sources.now)) order.old.stories) order.old order.new result }
{
    let ids = sources.as_slice();
    match find_delete_fault(alloc, order, Level::Items(story), ids) {
        Some(fault) => Err(told(fault)),
        None => {
            remove_all(alloc, order, story, ids);
            Ok(())
        }
    }
}

/// Exchanges two items.
pub fn swap<'a>(
    order: &mut Order,
    story: &'a OptId,
    first: &'a OptId,
    second: &'a OptId,
) -> Result<(), ActFault>
    ensures { IsAnswer false [] (act_of shape (OnItems story.now (Swap first.now second.now)) order.old.stories) order.old order.new result }
{
    match find_swap_fault(order, Level::Items(story), first, second) {
        Some(fault) => Err(told(fault)),
        None => {
            swap_items(order, story, first, second);
            Ok(())
        }
    }
}
