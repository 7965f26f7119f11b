//! Running orders and their parts.
ghost use Rattle.std.specs.Prelude.{◌↔◌, IsTrue};
ghost use Rattle.std.specs.List.{AllByRecursion};
ghost use Rattle.mos_tables.specs.declared.table.Table.TheVariants as tables;
ghost use Rattle.mos_values.specs.Sound.{AllFit, AreSoundItems, AreSoundStories, IsSoundBody, IsSoundItem, IsSoundPatch, IsSoundStory};
ghost use Rattle.mos_values.specs.Views.{header_events, story_head_events, story_send_events};

use crate::fields::pieces_fit;
use mos_tables::Table;
use mos_values::{
    Header, HeaderPatch, Item, OrderBody, Story, StorySend, header_pieces, item_pieces,
    patch_pieces, story_head_pieces, story_send_pieces,
};

fn is_sound_item(item: &Item) -> bool
    ensures { IsTrue result ↔ IsSoundItem item.now }
{
    pieces_fit(Table::Item, &item_pieces(item))
}

/// Whether each raw element of these items may stand where it does.
pub fn are_sound_items(items: &[Item]) -> bool
    ensures { IsTrue result ↔ AreSoundItems items.now }
{
    for item in items {
        if !is_sound_item(item) {
            return false;
        }
    }
    true
}

fn is_sound_head(story: &Story) -> bool
    ensures { IsTrue result ↔ AllFit tables.Story (story_head_events story.now) }
{
    pieces_fit(Table::Story, &story_head_pieces(story))
}

fn is_sound_story(story: &Story) -> bool
    ensures { IsTrue result ↔ IsSoundStory story.now }
{
    is_sound_head(story) && are_sound_items(story.items.as_slice())
}

/// Whether each raw element of these stories may stand where it does.
pub fn are_sound_stories(stories: &[Story]) -> bool
    ensures { IsTrue result ↔ AreSoundStories stories.now }
{
    for story in stories {
        if !is_sound_story(story) {
            return false;
        }
    }
    true
}

fn is_sound_header(header: &Header) -> bool
    ensures { IsTrue result ↔ AllFit tables.Body (header_events header.now) }
{
    pieces_fit(Table::Body, &header_pieces(header))
}

/// Whether each raw element of the running order may stand where it does.
pub fn is_sound_body(body: &OrderBody) -> bool
    ensures { IsTrue result ↔ IsSoundBody body.now }
{
    is_sound_header(&body.header) && are_sound_stories(body.stories.as_slice())
}

/// Whether each raw element of the header may stand where it does.
pub fn is_sound_patch(patch: &HeaderPatch) -> bool
    ensures { IsTrue result ↔ IsSoundPatch patch.now }
{
    pieces_fit(Table::HeaderPatch, &patch_pieces(patch))
}

/// Whether each raw element of these headers may stand where it does.
pub fn are_sound_patches(patches: &[HeaderPatch]) -> bool
    ensures { IsTrue result ↔ AllByRecursion IsSoundPatch patches.now }
{
    for patch in patches {
        if !is_sound_patch(patch) {
            return false;
        }
    }
    true
}

/// Whether each raw element of the story with its text may stand where it does.
pub fn is_sound_send(story: &StorySend) -> bool
    ensures { IsTrue result ↔ AllFit tables.StorySend (story_send_events story.now) }
{
    pieces_fit(Table::StorySend, &story_send_pieces(story))
}
