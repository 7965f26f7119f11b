//! Actions of a script on stories.
ghost use Rattle.std.specs.Prelude.{◌≡◌, IfOk};
ghost use Rattle.std.specs.Option.{option_map};
ghost use Rattle.mos_values.specs.declared.action.Action.TheVariants as actions;
ghost use Rattle.script_edits.specs.Edits.{some_ids as some_ids_of, some_stories as some_stories_of, target_and, two_names as two_names_of};
ghost use Rattle.script_edits.specs.Words.{words_in};

use crate::names::{both, opt_name, some_ids, target};
use crate::stories::some_stories;
use mos_fields::{NoMemory, OptId, OptIds};
use mos_values::{Action, Stories};
use std::alloc::Global;

/// A target, and stories.
fn target_and_stories(alloc: Global, words: &[&[u8]]) -> Result<Option<(OptId, Stories)>, NoMemory>
    ensures { IfOk result (λ o. o ≡ target_and some_stories_of (words_in words.now)) }
{
    match words {
        [] => Ok(None),
        [t, more @ ..] => {
            let target = target(alloc, t)?;
            let stories = some_stories(alloc, more)?;
            Ok(both(target, stories))
        }
    }
}

/// A target, and IDs.
pub fn target_and_ids(alloc: Global, words: &[&[u8]]) -> Result<Option<(OptId, OptIds)>, NoMemory>
    ensures { IfOk result (λ o. o ≡ target_and some_ids_of (words_in words.now)) }
{
    match words {
        [] => Ok(None),
        [t, more @ ..] => {
            let target = target(alloc, t)?;
            let ids = some_ids(alloc, more)?;
            Ok(both(target, ids))
        }
    }
}

/// Two names.
pub fn two_names(alloc: Global, words: &[&[u8]]) -> Result<Option<(OptId, OptId)>, NoMemory>
    ensures { IfOk result (λ o. o ≡ two_names_of (words_in words.now)) }
{
    match words {
        [x, y] => {
            let first = opt_name(alloc, x)?;
            let second = opt_name(alloc, y)?;
            Ok(both(first, second))
        }
        _ => Ok(None),
    }
}

/// `insert`: a target, and stories to put before it.
pub fn insert_stories(alloc: Global, words: &[&[u8]]) -> Result<Option<Action>, NoMemory>
    ensures { IfOk result (λ o. o ≡ option_map (λ p. actions.InsertStories p.0 p.1) (target_and some_stories_of (words_in words.now))) }
{
    match target_and_stories(alloc, words)? {
        None => Ok(None),
        Some((target, sources)) => Ok(Some(Action::InsertStories { target, sources })),
    }
}

/// `sub`: a target, and stories to put in its place.
pub fn replace_story(alloc: Global, words: &[&[u8]]) -> Result<Option<Action>, NoMemory>
    ensures { IfOk result (λ o. o ≡ option_map (λ p. actions.ReplaceStory p.0 p.1) (target_and some_stories_of (words_in words.now))) }
{
    match target_and_stories(alloc, words)? {
        None => Ok(None),
        Some((target, sources)) => Ok(Some(Action::ReplaceStory { target, sources })),
    }
}

/// `move`: a target, and IDs of stories that are moved before it.
pub fn move_stories(alloc: Global, words: &[&[u8]]) -> Result<Option<Action>, NoMemory>
    ensures { IfOk result (λ o. o ≡ option_map (λ p. actions.MoveStories p.0 p.1) (target_and some_ids_of (words_in words.now))) }
{
    match target_and_ids(alloc, words)? {
        None => Ok(None),
        Some((target, sources)) => Ok(Some(Action::MoveStories { target, sources })),
    }
}

/// `drop`: IDs of stories that are removed.
pub fn delete_stories(alloc: Global, words: &[&[u8]]) -> Result<Option<Action>, NoMemory>
    ensures { IfOk result (λ o. o ≡ option_map actions.DeleteStories (some_ids_of (words_in words.now))) }
{
    match some_ids(alloc, words)? {
        None => Ok(None),
        Some(sources) => Ok(Some(Action::DeleteStories { sources })),
    }
}

/// `swap`: two stories that change places.
pub fn swap_stories(alloc: Global, words: &[&[u8]]) -> Result<Option<Action>, NoMemory>
    ensures { IfOk result (λ o. o ≡ option_map (λ p. actions.SwapStories p.0 p.1) (two_names_of (words_in words.now))) }
{
    match two_names(alloc, words)? {
        None => Ok(None),
        Some((first, second)) => Ok(Some(Action::SwapStories { first, second })),
    }
}
