//! Actions of a script on the items of a story.
ghost use Rattle.std.specs.Prelude.{◌≡◌, IfOk};
ghost use Rattle.std.specs.Option.{option_map};
ghost use Rattle.mos_values.specs.declared.action.Action.TheVariants as actions;
ghost use Rattle.script_edits.specs.Edits.{name_and, some_ids as some_ids_of, some_items as some_items_of, target_and, two_names as two_names_of};
ghost use Rattle.script_edits.specs.Words.{words_in};

use crate::names::{both, opt_name, some_ids, target};
use crate::stories::some_items;
use crate::story_actions::{target_and_ids, two_names};
use mos_fields::{NoMemory, OptId, OptIds};
use mos_values::{Action, Items};
use std::alloc::Global;

/// A target, and items.
fn target_and_items(alloc: Global, words: &[&[u8]]) -> Result<Option<(OptId, Items)>, NoMemory>
    ensures { IfOk result (λ o. o ≡ target_and some_items_of (words_in words.now)) }
{
    match words {
        [] => Ok(None),
        [t, more @ ..] => {
            let target = target(alloc, t)?;
            let items = some_items(alloc, more)?;
            Ok(both(target, items))
        }
    }
}

/// A story, a target and items.
fn story_and_items(
    alloc: Global,
    words: &[&[u8]],
) -> Result<Option<(OptId, (OptId, Items))>, NoMemory>
    ensures { IfOk result (λ o. o ≡ name_and (target_and some_items_of) (words_in words.now)) }
{
    match words {
        [] => Ok(None),
        [a, more @ ..] => {
            let story = opt_name(alloc, a)?;
            let items = target_and_items(alloc, more)?;
            Ok(both(story, items))
        }
    }
}

/// A story, a target and IDs.
fn story_and_targeted_ids(
    alloc: Global,
    words: &[&[u8]],
) -> Result<Option<(OptId, (OptId, OptIds))>, NoMemory>
    ensures { IfOk result (λ o. o ≡ name_and (target_and some_ids_of) (words_in words.now)) }
{
    match words {
        [] => Ok(None),
        [a, more @ ..] => {
            let story = opt_name(alloc, a)?;
            let ids = target_and_ids(alloc, more)?;
            Ok(both(story, ids))
        }
    }
}

/// A story and IDs.
fn story_and_ids(alloc: Global, words: &[&[u8]]) -> Result<Option<(OptId, OptIds)>, NoMemory>
    ensures { IfOk result (λ o. o ≡ name_and some_ids_of (words_in words.now)) }
{
    match words {
        [] => Ok(None),
        [a, more @ ..] => {
            let story = opt_name(alloc, a)?;
            let ids = some_ids(alloc, more)?;
            Ok(both(story, ids))
        }
    }
}

/// A story and two names.
fn story_and_two(
    alloc: Global,
    words: &[&[u8]],
) -> Result<Option<(OptId, (OptId, OptId))>, NoMemory>
    ensures { IfOk result (λ o. o ≡ name_and two_names_of (words_in words.now)) }
{
    match words {
        [] => Ok(None),
        [a, more @ ..] => {
            let story = opt_name(alloc, a)?;
            let names = two_names(alloc, more)?;
            Ok(both(story, names))
        }
    }
}

/// `iinsert`: a story, a target, and items to put before it.
pub fn insert_items(alloc: Global, words: &[&[u8]]) -> Result<Option<Action>, NoMemory>
    ensures { IfOk result (λ o. o ≡ option_map (λ p. actions.InsertItems p.0 p.1.0 p.1.1) (name_and (target_and some_items_of) (words_in words.now))) }
{
    match story_and_items(alloc, words)? {
        None => Ok(None),
        Some((story, (target, sources))) => Ok(Some(Action::InsertItems {
            story,
            target,
            sources,
        })),
    }
}

/// `isub`: a story, a target, and items to put in its place.
pub fn replace_item(alloc: Global, words: &[&[u8]]) -> Result<Option<Action>, NoMemory>
    ensures { IfOk result (λ o. o ≡ option_map (λ p. actions.ReplaceItem p.0 p.1.0 p.1.1) (name_and (target_and some_items_of) (words_in words.now))) }
{
    match story_and_items(alloc, words)? {
        None => Ok(None),
        Some((story, (target, sources))) => Ok(Some(Action::ReplaceItem {
            story,
            target,
            sources,
        })),
    }
}

/// `imove`: a story, a target, and IDs of items that are moved before it.
pub fn move_items(alloc: Global, words: &[&[u8]]) -> Result<Option<Action>, NoMemory>
    ensures { IfOk result (λ o. o ≡ option_map (λ p. actions.MoveItems p.0 p.1.0 p.1.1) (name_and (target_and some_ids_of) (words_in words.now))) }
{
    match story_and_targeted_ids(alloc, words)? {
        None => Ok(None),
        Some((story, (target, sources))) => Ok(Some(Action::MoveItems {
            story,
            target,
            sources,
        })),
    }
}

/// `idrop`: a story, and IDs of items that are removed.
pub fn delete_items(alloc: Global, words: &[&[u8]]) -> Result<Option<Action>, NoMemory>
    ensures { IfOk result (λ o. o ≡ option_map (λ p. actions.DeleteItems p.0 p.1) (name_and some_ids_of (words_in words.now))) }
{
    match story_and_ids(alloc, words)? {
        None => Ok(None),
        Some((story, sources)) => Ok(Some(Action::DeleteItems { story, sources })),
    }
}

/// `iswap`: a story, and two items that change places.
pub fn swap_items(alloc: Global, words: &[&[u8]]) -> Result<Option<Action>, NoMemory>
    ensures { IfOk result (λ o. o ≡ option_map (λ p. actions.SwapItems p.0 p.1.0 p.1.1) (name_and two_names_of (words_in words.now))) }
{
    match story_and_two(alloc, words)? {
        None => Ok(None),
        Some((story, (first, second))) => Ok(Some(Action::SwapItems {
            story,
            first,
            second,
        })),
    }
}
