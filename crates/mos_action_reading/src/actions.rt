//! Actions on running orders from their events.
ghost use Rattle.std.specs.Prelude.{◌≡◌, ◌++◌, List, Some, None, IfOk};
ghost use Rattle.mos_fields.specs.Characters.{Text};
ghost use Rattle.mos_fields.specs.Fields.{name_of};
ghost use Rattle.mos_fields.specs.declared.field.Field.TheVariants as fields;
ghost use Rattle.mos_fields.specs.declared.operation.Operation.TheVariants as operations;
ghost use Rattle.mos_tables.specs.declared.table.Table.TheVariants as tables;
ghost use Rattle.mos_values.specs.MessageViews.{action_events, operation_of_action};
ghost use Rattle.mos_values.specs.Parts.{element, maybe, must};
ghost use Rattle.mos_cursor.specs.Accepted.{IsAccepted};
ghost use Rattle.mos_action_reading.specs.Parts.{IsSourceOf, IsTargetOf, target_events};

use crate::parts::{ActionParts, action_parts};
use crate::sources::{
    Pair, delete_items, delete_stories, insert_items, insert_stories, move_items, move_stories,
    replace_items, replace_stories, swap_items, swap_stories,
};
use crate::targets::{
    Target, delete_story, insert_target, move_target, replace_target, swap_story,
};
use mos_cursor::Cursor;
use mos_fields::{Id, NoMemory, Operation, OptId};
use mos_values::Action;
use std::alloc::Global;

/// The action that inserts, with this target and the source of these events.
#[tactic(auto, unfolding(mos_values::specs::MessageViews::action_events, mos_values::specs::MessageViews::target_story, mos_values::specs::MessageViews::target_item, mos_values::specs::MessageViews::source, mos_values::specs::Parts::must, mos_values::specs::Parts::maybe))]
fn insert_from(alloc: Global, target: Target, source: Cursor) -> Result<Action, NoMemory>
    requires { IsSourceOf operations.Insert (Some (must fields.StoryID target.story ++ maybe fields.ItemID target.item)) source }
    ensures events { IfOk result (λ a. action_events a ≡ target_events (Some (must fields.StoryID target.story ++ maybe fields.ItemID target.item)) ++ element (name_of fields.ElementSource) source) }
    ensures operation { IfOk result (λ a. operation_of_action a ≡ operations.Insert) }
{
    let Target { story, item } = target;
    match item {
        None => {
            let sources = insert_stories(alloc, source)?;
            Ok(Action::InsertStories {
                target: story,
                sources,
            })
        }
        Some(target) => {
            let sources = insert_items(alloc, source)?;
            Ok(Action::InsertItems {
                story,
                target,
                sources,
            })
        }
    }
}

/// The action that inserts, with the target and the source of these events.
fn insert_with(alloc: Global, target: Option<Cursor>, source: Cursor) -> Result<Action, NoMemory>
    requires target { IsTargetOf operations.Insert target }
    requires source { IsSourceOf operations.Insert target source }
    ensures events { IfOk result (λ a. action_events a ≡ target_events target ++ element (name_of fields.ElementSource) source) }
    ensures operation { IfOk result (λ a. operation_of_action a ≡ operations.Insert) }
{
    match target {
        Some(target) => insert_from(alloc, insert_target(alloc, target)?, source),
        None => unreachable!(),
    }
}

/// The action that replaces, with this target and the source of these events.
#[tactic(auto, unfolding(mos_values::specs::MessageViews::action_events, mos_values::specs::MessageViews::target_story, mos_values::specs::MessageViews::target_item, mos_values::specs::MessageViews::source, mos_values::specs::Parts::must, mos_values::specs::Parts::maybe))]
fn replace_from(alloc: Global, target: Target, source: Cursor) -> Result<Action, NoMemory>
    requires { IsSourceOf operations.Replace (Some (must fields.StoryID target.story ++ maybe fields.ItemID target.item)) source }
    ensures events { IfOk result (λ a. action_events a ≡ target_events (Some (must fields.StoryID target.story ++ maybe fields.ItemID target.item)) ++ element (name_of fields.ElementSource) source) }
    ensures operation { IfOk result (λ a. operation_of_action a ≡ operations.Replace) }
{
    let Target { story, item } = target;
    match item {
        None => {
            let sources = replace_stories(alloc, source)?;
            Ok(Action::ReplaceStory {
                target: story,
                sources,
            })
        }
        Some(target) => {
            let sources = replace_items(alloc, source)?;
            Ok(Action::ReplaceItem {
                story,
                target,
                sources,
            })
        }
    }
}

/// The action that replaces, with the target and the source of these events.
fn replace_with(alloc: Global, target: Option<Cursor>, source: Cursor) -> Result<Action, NoMemory>
    requires target { IsTargetOf operations.Replace target }
    requires source { IsSourceOf operations.Replace target source }
    ensures events { IfOk result (λ a. action_events a ≡ target_events target ++ element (name_of fields.ElementSource) source) }
    ensures operation { IfOk result (λ a. operation_of_action a ≡ operations.Replace) }
{
    match target {
        Some(target) => replace_from(alloc, replace_target(alloc, target)?, source),
        None => unreachable!(),
    }
}

/// The action that moves, with this target and the source of these events.
#[tactic(auto, unfolding(mos_values::specs::MessageViews::action_events, mos_values::specs::MessageViews::target_story, mos_values::specs::MessageViews::target_item, mos_values::specs::MessageViews::source, mos_values::specs::Parts::must, mos_values::specs::Parts::maybe))]
fn move_from(alloc: Global, target: Target, source: Cursor) -> Result<Action, NoMemory>
    requires { IsSourceOf operations.Move (Some (must fields.StoryID target.story ++ maybe fields.ItemID target.item)) source }
    ensures events { IfOk result (λ a. action_events a ≡ target_events (Some (must fields.StoryID target.story ++ maybe fields.ItemID target.item)) ++ element (name_of fields.ElementSource) source) }
    ensures operation { IfOk result (λ a. operation_of_action a ≡ operations.Move) }
{
    let Target { story, item } = target;
    match item {
        None => {
            let sources = move_stories(alloc, source)?;
            Ok(Action::MoveStories {
                target: story,
                sources,
            })
        }
        Some(target) => {
            let sources = move_items(alloc, source)?;
            Ok(Action::MoveItems {
                story,
                target,
                sources,
            })
        }
    }
}

/// The action that moves, with the target and the source of these events.
fn move_with(alloc: Global, target: Option<Cursor>, source: Cursor) -> Result<Action, NoMemory>
    requires target { IsTargetOf operations.Move target }
    requires source { IsSourceOf operations.Move target source }
    ensures events { IfOk result (λ a. action_events a ≡ target_events target ++ element (name_of fields.ElementSource) source) }
    ensures operation { IfOk result (λ a. operation_of_action a ≡ operations.Move) }
{
    match target {
        Some(target) => move_from(alloc, move_target(alloc, target)?, source),
        None => unreachable!(),
    }
}

/// The action that removes stories, with the source of these events.
#[tactic(auto, unfolding(mos_values::specs::MessageViews::action_events, mos_values::specs::MessageViews::target_story, mos_values::specs::MessageViews::target_item, mos_values::specs::MessageViews::source, mos_values::specs::Parts::must, mos_values::specs::Parts::maybe))]
fn delete_stories_from(alloc: Global, source: Cursor) -> Result<Action, NoMemory>
    requires { IsSourceOf operations.Delete None source }
    ensures events { IfOk result (λ a. action_events a ≡ target_events None ++ element (name_of fields.ElementSource) source) }
    ensures operation { IfOk result (λ a. operation_of_action a ≡ operations.Delete) }
{
    let sources = delete_stories(alloc, source)?;
    Ok(Action::DeleteStories { sources })
}

/// The action that removes items of this story, with the source of these events.
#[tactic(auto, unfolding(mos_values::specs::MessageViews::action_events, mos_values::specs::MessageViews::target_story, mos_values::specs::MessageViews::target_item, mos_values::specs::MessageViews::source, mos_values::specs::Parts::must, mos_values::specs::Parts::maybe))]
fn delete_items_from(alloc: Global, story: OptId, source: Cursor) -> Result<Action, NoMemory>
    requires { IsSourceOf operations.Delete (Some (must fields.StoryID story)) source }
    ensures events { IfOk result (λ a. action_events a ≡ target_events (Some (must fields.StoryID story)) ++ element (name_of fields.ElementSource) source) }
    ensures operation { IfOk result (λ a. operation_of_action a ≡ operations.Delete) }
{
    let sources = delete_items(alloc, source)?;
    Ok(Action::DeleteItems { story, sources })
}

/// The action that removes, with the target and the source of these events.
fn delete_with(alloc: Global, target: Option<Cursor>, source: Cursor) -> Result<Action, NoMemory>
    requires target { IsTargetOf operations.Delete target }
    requires source { IsSourceOf operations.Delete target source }
    ensures events { IfOk result (λ a. action_events a ≡ target_events target ++ element (name_of fields.ElementSource) source) }
    ensures operation { IfOk result (λ a. operation_of_action a ≡ operations.Delete) }
{
    match target {
        Some(target) => delete_items_from(alloc, delete_story(alloc, target)?, source),
        None => delete_stories_from(alloc, source),
    }
}

/// The action that exchanges stories, with the source of these events.
#[tactic(auto, unfolding(mos_values::specs::MessageViews::action_events, mos_values::specs::MessageViews::target_story, mos_values::specs::MessageViews::target_item, mos_values::specs::MessageViews::source, mos_values::specs::Parts::must, mos_values::specs::Parts::maybe))]
fn swap_stories_from(alloc: Global, source: Cursor) -> Result<Action, NoMemory>
    requires { IsSourceOf operations.Swap None source }
    ensures events { IfOk result (λ a. action_events a ≡ target_events None ++ element (name_of fields.ElementSource) source) }
    ensures operation { IfOk result (λ a. operation_of_action a ≡ operations.Swap) }
{
    let Pair { first, second } = swap_stories(alloc, source)?;
    Ok(Action::SwapStories { first, second })
}

/// The action that exchanges items of this story, with the source of these events.
#[tactic(auto, unfolding(mos_values::specs::MessageViews::action_events, mos_values::specs::MessageViews::target_story, mos_values::specs::MessageViews::target_item, mos_values::specs::MessageViews::source, mos_values::specs::Parts::must, mos_values::specs::Parts::maybe))]
fn swap_items_from(alloc: Global, story: OptId, source: Cursor) -> Result<Action, NoMemory>
    requires { IsSourceOf operations.Swap (Some (must fields.StoryID story)) source }
    ensures events { IfOk result (λ a. action_events a ≡ target_events (Some (must fields.StoryID story)) ++ element (name_of fields.ElementSource) source) }
    ensures operation { IfOk result (λ a. operation_of_action a ≡ operations.Swap) }
{
    let Pair { first, second } = swap_items(alloc, source)?;
    Ok(Action::SwapItems {
        story,
        first,
        second,
    })
}

/// The action that exchanges, with the target and the source of these events.
fn swap_with(alloc: Global, target: Option<Cursor>, source: Cursor) -> Result<Action, NoMemory>
    requires target { IsTargetOf operations.Swap target }
    requires source { IsSourceOf operations.Swap target source }
    ensures events { IfOk result (λ a. action_events a ≡ target_events target ++ element (name_of fields.ElementSource) source) }
    ensures operation { IfOk result (λ a. operation_of_action a ≡ operations.Swap) }
{
    match target {
        Some(target) => swap_items_from(alloc, swap_story(alloc, target)?, source),
        None => swap_stories_from(alloc, source),
    }
}

/// The action of this operation, with the target and the source of these events.
fn action_with(
    alloc: Global,
    operation: Operation,
    target: Option<Cursor>,
    source: Cursor,
) -> Result<Action, NoMemory>
    requires target { IsTargetOf operation target }
    requires source { IsSourceOf operation target source }
    ensures events { IfOk result (λ a. action_events a ≡ target_events target ++ element (name_of fields.ElementSource) source) }
    ensures operation { IfOk result (λ a. operation_of_action a ≡ operation) }
{
    match operation {
        Operation::Insert => insert_with(alloc, target, source),
        Operation::Replace => replace_with(alloc, target, source),
        Operation::Move => move_with(alloc, target, source),
        Operation::Delete => delete_with(alloc, target, source),
        Operation::Swap => swap_with(alloc, target, source),
    }
}

/// The order and the action of a roElementAction, from its events and the operation that its element's attribute
/// gives. The only error is that memory runs out.
pub fn action_of(
    alloc: Global,
    operation: Operation,
    cursor: Cursor,
) -> Result<(Id, Action), NoMemory>
    requires { (taken : List Text) × IsAccepted (tables.Action operation) taken cursor }
    ensures events { IfOk result (λ r. must fields.RoID r.0 ++ action_events r.1 ≡ cursor) }
    ensures operation { IfOk result (λ r. operation_of_action r.1 ≡ operation) }
{
    let parts = action_parts(alloc, operation, cursor)?;
    let ActionParts { ro, target, source } = parts;
    let action = action_with(alloc, operation, target, source)?;
    Ok((ro, action))
}
