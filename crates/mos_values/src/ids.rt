//! Comparing IDs.
ghost use Rattle.std.specs.Prelude.{◌≡◌, ◌↔◌, IsTrue, Contains};
ghost use Rattle.mos_values.specs.Distinct.{item_ids, story_ids};

use crate::item::Item;
use crate::story::Story;
use mos_fields::{Id, Text};

/// Whether two texts have the same characters.
pub fn are_same(a: &Text, b: &Text) -> bool
    ensures { IsTrue result ↔ (a.now ≡ b.now) }
{
    a.units() == b.units()
}

/// Whether two IDs are the same.
pub fn are_equal(a: &Id, b: &Id) -> bool
    ensures { IsTrue result ↔ (a.now ≡ b.now) }
{
    are_same(a.text(), b.text())
}

/// Whether one of these items has this itemID.
pub fn is_item_among(items: &[Item], id: &Id) -> bool
    ensures { IsTrue result ↔ Contains (item_ids items.now) id.now }
{
    for item in items {
        if are_equal(&item.id, id) {
            return true;
        }
    }
    false
}

fn has_id(story: &Story, id: &Id) -> bool
    ensures { IsTrue result ↔ (story.now.id ≡ id.now) }
{
    are_equal(&story.id, id)
}

/// Whether one of these stories has this storyID.
pub fn is_story_among(stories: &[Story], id: &Id) -> bool
    ensures { IsTrue result ↔ Contains (story_ids stories.now) id.now }
{
    for story in stories {
        if has_id(story, id) {
            return true;
        }
    }
    false
}

/// Whether an item with the itemID of this one is among these.
pub fn repeats_item(items: &[Item], item: &Item) -> bool
    ensures { IsTrue result ↔ Contains (item_ids items.now) item.now.id }
{
    is_item_among(items, &item.id)
}

/// Whether a story with the storyID of this one is among these.
pub fn repeats_story(stories: &[Story], story: &Story) -> bool
    ensures { IsTrue result ↔ Contains (story_ids stories.now) story.now.id }
{
    is_story_among(stories, &story.id)
}
