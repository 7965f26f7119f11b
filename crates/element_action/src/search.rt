//! The first fault of each form of action: the story of an item form, the target, then the sources from left to right.
//!
//! Many sources are looked for in a table of those before them. Where there is no memory for it, they are compared with one
//! another, so that each search has its answer.
ghost use Rattle.std.specs.Prelude.{◌≡◌, [], Some, IfOk};
ghost use Rattle.std.specs.Option.{option_copied, option_map};
ghost use Rattle.mos_edits.specs.Texts.{same_id, has_id};
ghost use Rattle.mos_edits.specs.KeyedLists.{first_of, lacking, lacking_target, lacking_place, first_repeated, first_missing};
ghost use Rattle.element_action.specs.Answers.{named};
ghost use Rattle.element_action.specs.Levels.{level_ids, level_fault, beside};

use crate::first_fault::FirstFault;
use crate::level::Level;
use crate::seen::{are_few, is_seen, note};
use mos_fields::{NoMemory, OptId};
use running_order::{IdTable, Order};
use std::alloc::Global;

// Whether two IDs are the same.
fn is_same(a: &OptId, b: &OptId) -> bool
    ensures { result ≡ same_id a.now b.now }
{
    a.is(b)
}

// Whether the ID stands among these.
fn is_among(id: &OptId, ids: &[OptId]) -> bool
    ensures { result ≡ has_id id.now ids.now }
{
    for other in ids {
        if is_same(id, other) {
            return true;
        }
    }
    false
}

// Whether the ID stands in the list.
fn is_there(order: &Order, level: Level<'_>, id: &OptId) -> bool
    ensures { result ≡ has_id id.now (level_ids level.entry order.now.stories) }
{
    match level {
        Level::Stories => order.story_place(id).is_some(),
        Level::Items(story) => order.item_place(story, id).is_some(),
    }
}

// Whether the ID stands in the list beside one that is left out.
fn is_beside(order: &Order, level: Level<'_>, out: Option<&OptId>, id: &OptId) -> bool
    ensures { result ≡ has_id id.now (beside (option_copied out.entry) (level_ids level.entry order.now.stories)) }
{
    match out {
        None => is_there(order, level, id),
        Some(target) => is_there(order, level, id) && !is_same(id, target),
    }
}

// An ID that has to be there.
fn find_lacking<'a>(order: &Order, level: Level<'_>, id: &'a OptId) -> Option<FirstFault<'a>>
    ensures { option_map named result ≡ lacking (level_ids level.entry order.now.stories) id.now }
{
    if is_there(order, level, id) {
        None
    } else {
        Some(FirstFault::Missing(id))
    }
}

// The story whose items are edited.
fn find_level_fault<'a>(order: &Order, level: Level<'a>) -> Option<FirstFault<'a>>
    ensures { option_map named result ≡ level_fault level.entry order.now.stories }
{
    match level {
        Level::Stories => None,
        Level::Items(story) => find_lacking(order, Level::Stories, story),
    }
}

// The target of an INSERT.
fn find_target_fault<'a>(
    order: &Order,
    level: Level<'_>,
    target: &'a OptId,
) -> Option<FirstFault<'a>>
    ensures { option_map named result ≡ lacking_target (level_ids level.entry order.now.stories) target.now }
{
    if target.text().is_empty() {
        None
    } else {
        find_lacking(order, level, target)
    }
}

// The target of a MOVE.
fn find_place_fault<'a>(
    order: &Order,
    level: Level<'_>,
    sources: &[OptId],
    target: &'a OptId,
) -> Option<FirstFault<'a>>
    ensures { option_map named result ≡ lacking_place (level_ids level.entry order.now.stories) sources.now target.now }
{
    if target.text().is_empty() || is_there(order, level, target) && !is_among(target, sources) {
        None
    } else {
        Some(FirstFault::Missing(target))
    }
}

// The first source that is there, or that equals one before it.
fn find_repeated_by_pairs<'a>(
    order: &Order,
    level: Level<'_>,
    out: Option<&OptId>,
    sources: &'a [OptId],
) -> Option<FirstFault<'a>>
    ensures { option_map named result ≡ first_repeated (beside (option_copied out.entry) (level_ids level.entry order.now.stories)) [] sources.now }
{
    for k in 0..sources.len() {
        let id = &sources[k];
        if is_beside(order, level, out, id) || is_among(id, &sources[..k]) {
            return Some(FirstFault::AlreadyThere(id));
        }
    }
    None
}

// The same, by a table of those before it.
fn find_repeated_by_table<'a>(
    alloc: Global,
    order: &Order,
    level: Level<'_>,
    out: Option<&OptId>,
    sources: &'a [OptId],
) -> Result<Option<FirstFault<'a>>, NoMemory>
    ensures { IfOk result (λ f. option_map named f ≡ first_repeated (beside (option_copied out.entry) (level_ids level.entry order.now.stories)) [] sources.now) }
{
    let mut seen = IdTable::with_room(alloc, sources.len())?;
    for k in 0..sources.len() {
        let id = &sources[k];
        if is_beside(order, level, out, id) || is_seen(&seen, id) {
            return Ok(Some(FirstFault::AlreadyThere(id)));
        }
        note(&mut seen, alloc, id)?;
    }
    Ok(None)
}

// The same, however many there are.
fn find_repeated<'a>(
    alloc: Global,
    order: &Order,
    level: Level<'_>,
    out: Option<&OptId>,
    sources: &'a [OptId],
) -> Option<FirstFault<'a>>
    ensures { option_map named result ≡ first_repeated (beside (option_copied out.entry) (level_ids level.entry order.now.stories)) [] sources.now }
{
    if are_few(sources) {
        find_repeated_by_pairs(order, level, out, sources)
    } else {
        match find_repeated_by_table(alloc, order, level, out, sources) {
            Ok(found) => found,
            Err(_) => find_repeated_by_pairs(order, level, out, sources),
        }
    }
}

// The first source that isn't there, or that equals one before it.
fn find_missing_by_pairs<'a>(
    order: &Order,
    level: Level<'_>,
    sources: &'a [OptId],
) -> Option<FirstFault<'a>>
    ensures { option_map named result ≡ first_missing (level_ids level.entry order.now.stories) [] sources.now }
{
    for k in 0..sources.len() {
        let id = &sources[k];
        if !is_there(order, level, id) || is_among(id, &sources[..k]) {
            return Some(FirstFault::Missing(id));
        }
    }
    None
}

// The same, by a table of those before it.
fn find_missing_by_table<'a>(
    alloc: Global,
    order: &Order,
    level: Level<'_>,
    sources: &'a [OptId],
) -> Result<Option<FirstFault<'a>>, NoMemory>
    ensures { IfOk result (λ f. option_map named f ≡ first_missing (level_ids level.entry order.now.stories) [] sources.now) }
{
    let mut seen = IdTable::with_room(alloc, sources.len())?;
    for k in 0..sources.len() {
        let id = &sources[k];
        if !is_there(order, level, id) || is_seen(&seen, id) {
            return Ok(Some(FirstFault::Missing(id)));
        }
        note(&mut seen, alloc, id)?;
    }
    Ok(None)
}

// The same, however many there are.
fn find_missing<'a>(
    alloc: Global,
    order: &Order,
    level: Level<'_>,
    sources: &'a [OptId],
) -> Option<FirstFault<'a>>
    ensures { option_map named result ≡ first_missing (level_ids level.entry order.now.stories) [] sources.now }
{
    if are_few(sources) {
        find_missing_by_pairs(order, level, sources)
    } else {
        match find_missing_by_table(alloc, order, level, sources) {
            Ok(found) => found,
            Err(_) => find_missing_by_pairs(order, level, sources),
        }
    }
}

/// The first fault of an INSERT of what has these IDs.
pub fn find_insert_fault<'a>(
    alloc: Global,
    order: &Order,
    level: Level<'a>,
    target: &'a OptId,
    sources: &'a [OptId],
) -> Option<FirstFault<'a>>
    ensures { option_map named result ≡ first_of (level_fault level.entry order.now.stories) (first_of (lacking_target (level_ids level.entry order.now.stories) target.now) (first_repeated (level_ids level.entry order.now.stories) [] sources.now)) }
{
    match find_level_fault(order, level) {
        Some(fault) => Some(fault),
        None => match find_target_fault(order, level, target) {
            Some(fault) => Some(fault),
            None => find_repeated(alloc, order, level, None, sources),
        },
    }
}

/// The first fault of a REPLACE by what has these IDs.
pub fn find_replace_fault<'a>(
    alloc: Global,
    order: &Order,
    level: Level<'a>,
    target: &'a OptId,
    sources: &'a [OptId],
) -> Option<FirstFault<'a>>
    ensures { option_map named result ≡ first_of (level_fault level.entry order.now.stories) (first_of (lacking (level_ids level.entry order.now.stories) target.now) (first_repeated (beside (Some target.now) (level_ids level.entry order.now.stories)) [] sources.now)) }
{
    match find_level_fault(order, level) {
        Some(fault) => Some(fault),
        None => match find_lacking(order, level, target) {
            Some(fault) => Some(fault),
            None => find_repeated(alloc, order, level, Some(target), sources),
        },
    }
}

/// The first fault of a MOVE.
pub fn find_move_fault<'a>(
    alloc: Global,
    order: &Order,
    level: Level<'a>,
    target: &'a OptId,
    sources: &'a [OptId],
) -> Option<FirstFault<'a>>
    ensures { option_map named result ≡ first_of (level_fault level.entry order.now.stories) (first_of (lacking_place (level_ids level.entry order.now.stories) sources.now target.now) (first_missing (level_ids level.entry order.now.stories) [] sources.now)) }
{
    match find_level_fault(order, level) {
        Some(fault) => Some(fault),
        None => match find_place_fault(order, level, sources, target) {
            Some(fault) => Some(fault),
            None => find_missing(alloc, order, level, sources),
        },
    }
}

/// The first fault of a DELETE.
pub fn find_delete_fault<'a>(
    alloc: Global,
    order: &Order,
    level: Level<'a>,
    sources: &'a [OptId],
) -> Option<FirstFault<'a>>
    ensures { option_map named result ≡ first_of (level_fault level.entry order.now.stories) (first_missing (level_ids level.entry order.now.stories) [] sources.now) }
{
    match find_level_fault(order, level) {
        Some(fault) => Some(fault),
        None => find_missing(alloc, order, level, sources),
    }
}

/// The first fault of a SWAP.
pub fn find_swap_fault<'a>(
    order: &Order,
    level: Level<'a>,
    first: &'a OptId,
    second: &'a OptId,
) -> Option<FirstFault<'a>>
    ensures { option_map named result ≡ first_of (level_fault level.entry order.now.stories) (first_of (lacking (level_ids level.entry order.now.stories) first.now) (lacking (level_ids level.entry order.now.stories) second.now)) }
{
    match find_level_fault(order, level) {
        Some(fault) => Some(fault),
        None => match find_lacking(order, level, first) {
            Some(fault) => Some(fault),
            None => find_lacking(order, level, second),
        },
    }
}
