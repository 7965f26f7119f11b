//! The first fault of an action, told before anything is copied for it.
ghost use Rattle.mos_edits.specs.KeyedLists.ListAction.{Insert, Replace, Move, Delete, Swap};
ghost use Rattle.mos_edits.specs.Actions.{act as act_of};
ghost use Rattle.mos_edits.specs.Actions.Action.{OnItems, OnStories};
ghost use Rattle.mos_edits.specs.Orders.{form_of, shape};
ghost use Rattle.element_action.specs.Answers.{IsChecked};

use crate::fault::{ActFault, told};
use crate::level::Level;
use crate::search::{
    find_delete_fault, find_insert_fault, find_move_fault, find_replace_fault, find_swap_fault,
};
use crate::sources::{ids_of_items, ids_of_stories};
use mos_fields::{OptId, OptIds};
use mos_values::{Action, Items, Stories};
use running_order::Order;
use std::alloc::Global;

// Whether stories may be put in before the target.
fn check_insert_stories(
    alloc: Global,
    order: &Order,
    target: &OptId,
    sources: &Stories,
) -> Result<(), ActFault>
    ensures { IsChecked (act_of shape (OnStories (Insert target.now sources.now)) order.now.stories) result }
{
    let ids = ids_of_stories(alloc, sources)?;
    match find_insert_fault(alloc, order, Level::Stories, target, ids.as_slice()) {
        Some(fault) => Err(told(fault)),
        None => Ok(()),
    }
}

// Whether stories may be put in place of the target.
fn check_replace_story(
    alloc: Global,
    order: &Order,
    target: &OptId,
    sources: &Stories,
) -> Result<(), ActFault>
    ensures { IsChecked (act_of shape (OnStories (Replace target.now sources.now)) order.now.stories) result }
{
    let ids = ids_of_stories(alloc, sources)?;
    match find_replace_fault(alloc, order, Level::Stories, target, ids.as_slice()) {
        Some(fault) => Err(told(fault)),
        None => Ok(()),
    }
}

// Whether stories may be moved before the target.
fn check_move_stories<'a>(
    alloc: Global,
    order: &Order,
    target: &'a OptId,
    sources: &'a OptIds,
) -> Result<(), ActFault>
    ensures { IsChecked (act_of shape (OnStories (Move target.now sources.now)) order.now.stories) result }
{
    let ids = sources.as_slice();
    match find_move_fault(alloc, order, Level::Stories, target, ids) {
        Some(fault) => Err(told(fault)),
        None => Ok(()),
    }
}

// Whether stories may be removed.
fn check_delete_stories<'a>(
    alloc: Global,
    order: &Order,
    sources: &'a OptIds,
) -> Result<(), ActFault>
    ensures { IsChecked (act_of shape (OnStories (Delete sources.now)) order.now.stories) result }
{
    let ids = sources.as_slice();
    match find_delete_fault(alloc, order, Level::Stories, ids) {
        Some(fault) => Err(told(fault)),
        None => Ok(()),
    }
}

// Whether two stories may be exchanged.
fn check_swap_stories<'a>(
    order: &Order,
    first: &'a OptId,
    second: &'a OptId,
) -> Result<(), ActFault>
    ensures { IsChecked (act_of shape (OnStories (Swap first.now second.now)) order.now.stories) result }
{
    match find_swap_fault(order, Level::Stories, first, second) {
        Some(fault) => Err(told(fault)),
        None => Ok(()),
    }
}

// Whether items may be put in before the target.
fn check_insert_items(
    alloc: Global,
    order: &Order,
    story: &OptId,
    target: &OptId,
    sources: &Items,
) -> Result<(), ActFault>
    ensures { IsChecked (act_of shape (OnItems story.now (Insert target.now sources.now)) order.now.stories) result }
{
    let ids = ids_of_items(alloc, sources)?;
    match find_insert_fault(alloc, order, Level::Items(story), target, ids.as_slice()) {
        Some(fault) => Err(told(fault)),
        None => Ok(()),
    }
}

// Whether items may be put in place of the target.
fn check_replace_item(
    alloc: Global,
    order: &Order,
    story: &OptId,
    target: &OptId,
    sources: &Items,
) -> Result<(), ActFault>
    ensures { IsChecked (act_of shape (OnItems story.now (Replace target.now sources.now)) order.now.stories) result }
{
    let ids = ids_of_items(alloc, sources)?;
    match find_replace_fault(alloc, order, Level::Items(story), target, ids.as_slice()) {
        Some(fault) => Err(told(fault)),
        None => Ok(()),
    }
}

// Whether items may be moved before the target.
fn check_move_items<'a>(
    alloc: Global,
    order: &Order,
    story: &'a OptId,
    target: &'a OptId,
    sources: &'a OptIds,
) -> Result<(), ActFault>
    ensures { IsChecked (act_of shape (OnItems story.now (Move target.now sources.now)) order.now.stories) result }
{
    let ids = sources.as_slice();
    match find_move_fault(alloc, order, Level::Items(story), target, ids) {
        Some(fault) => Err(told(fault)),
        None => Ok(()),
    }
}

// Whether items may be removed.
fn check_delete_items<'a>(
    alloc: Global,
    order: &Order,
    story: &'a OptId,
    sources: &'a OptIds,
) -> Result<(), ActFault>
    ensures { IsChecked (act_of shape (OnItems story.now (Delete sources.now)) order.now.stories) result }
{
    let ids = sources.as_slice();
    match find_delete_fault(alloc, order, Level::Items(story), ids) {
        Some(fault) => Err(told(fault)),
        None => Ok(()),
    }
}

// Whether two items may be exchanged.
fn check_swap_items<'a>(
    order: &Order,
    story: &'a OptId,
    first: &'a OptId,
    second: &'a OptId,
) -> Result<(), ActFault>
    ensures { IsChecked (act_of shape (OnItems story.now (Swap first.now second.now)) order.now.stories) result }
{
    match find_swap_fault(order, Level::Items(story), first, second) {
        Some(fault) => Err(told(fault)),
        None => Ok(()),
    }
}

/// Whether an action applies to an order: `Ok` where it has a result, else its first fault. `NoMemory` may come in place of
/// both. The order is looked at alone, so that nothing need be copied for an action that is refused.
pub fn check(alloc: Global, order: &Order, action: &Action) -> Result<(), ActFault>
    ensures { IsChecked (act_of shape (form_of action.now) order.now.stories) result }
{
    match action {
        Action::InsertStories { target, sources } => check_insert_stories(
            alloc, order, target, sources,
        ),
        Action::ReplaceStory { target, sources } => check_replace_story(
            alloc, order, target, sources,
        ),
        Action::InsertItems {
            story,
            target,
            sources,
        } => check_insert_items(alloc, order, story, target, sources),
        Action::ReplaceItem {
            story,
            target,
            sources,
        } => check_replace_item(alloc, order, story, target, sources),
        Action::MoveStories { target, sources } => check_move_stories(
            alloc, order, target, sources,
        ),
        Action::MoveItems {
            story,
            target,
            sources,
        } => check_move_items(alloc, order, story, target, sources),
        Action::DeleteStories { sources } => check_delete_stories(alloc, order, sources),
        Action::DeleteItems { story, sources } => check_delete_items(alloc, order, story, sources),
        Action::SwapStories { first, second } => check_swap_stories(order, first, second),
        Action::SwapItems {
            story,
            first,
            second,
        } => check_swap_items(order, story, first, second),
    }
}
