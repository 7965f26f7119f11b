//! Actions on stories and items.
ghost use Rattle.std.specs.Prelude.{◌↔◌, ◌≤◌, IsTrue, length};
ghost use Rattle.mos_values.specs.Sound.{AreSoundItems, AreSoundStories, IsSoundAction};

use crate::orders::{are_sound_items, are_sound_stories};
use mos_values::{Action, Items, Stories};

/// Whether there is a story, and all are sound.
fn are_story_sources(stories: &Stories) -> bool
    ensures { IsTrue result ↔ ((1 ≤ length stories.now) × AreSoundStories stories.now) }
{
    !stories.is_empty() && are_sound_stories(stories.as_slice())
}

/// Whether there is an item, and all are sound.
fn are_item_sources(items: &Items) -> bool
    ensures { IsTrue result ↔ ((1 ≤ length items.now) × AreSoundItems items.now) }
{
    !items.is_empty() && are_sound_items(items.as_slice())
}

/// Whether the action has a source, and each raw element of its sources may stand where it does.
pub fn is_sound_action(action: &Action) -> bool
    ensures { IsTrue result ↔ IsSoundAction action.now }
{
    match action {
        Action::InsertStories { target: _, sources } => are_story_sources(sources),
        Action::ReplaceStory { target: _, sources } => are_story_sources(sources),
        Action::InsertItems {
            story: _,
            target: _,
            sources,
        } => are_item_sources(sources),
        Action::ReplaceItem {
            story: _,
            target: _,
            sources,
        } => are_item_sources(sources),
        Action::MoveStories { target: _, sources } => !sources.is_empty(),
        Action::MoveItems {
            story: _,
            target: _,
            sources,
        } => !sources.is_empty(),
        Action::DeleteStories { sources } => !sources.is_empty(),
        Action::DeleteItems { story: _, sources } => !sources.is_empty(),
        Action::SwapStories {
            first: _,
            second: _,
        } => true,
        Action::SwapItems {
            story: _,
            first: _,
            second: _,
        } => true,
    }
}
