//! Places of targets.
ghost use Rattle.std.specs.Prelude.{◌≡◌, ◌<◌};
ghost use Rattle.running_order.specs.Places.{place_of};
ghost use Rattle.element_action.specs.Levels.{level_ids};
ghost use Rattle.element_action.specs.Targets.{target_place_of, place_in, place_moved};

use crate::level::Level;
use mos_fields::OptId;
use running_order::Order;

// The place of an ID in the list.
fn place(order: &Order, level: Level<'_>, id: &OptId) -> Option<usize>
    ensures { result ≡ place_of id.now (level_ids level.entry order.now.stories) }
{
    match level {
        Level::Stories => order.story_place(id),
        Level::Items(story) => order.item_place(story, id),
    }
}

/// The place of a target in the list; none for an empty one, which stands for the end.
pub fn target_place(order: &Order, level: Level<'_>, target: &OptId) -> Option<usize>
    ensures { result ≡ target_place_of target.now (level_ids level.entry order.now.stories) }
{
    if target.text().is_empty() {
        None
    } else {
        place(order, level, target)
    }
}

/// Where something is put in: before the target, or at the end.
pub fn place_before(end: usize, target: Option<usize>) -> usize
    ensures { result ≡ place_in end target }
{
    target.unwrap_or(end)
}

/// Where something that is taken out of the place `from` stands before the target, or last.
pub fn place_after_move(end: usize, from: usize, target: Option<usize>) -> usize
    requires { from < end }
    ensures { result ≡ place_moved end from target }
{
    match target {
        Some(p) if p < from => p,
        Some(p) if from < p => p - 1,
        _ => end - 1,
    }
}
