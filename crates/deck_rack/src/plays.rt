//! Playlists.
ghost use Rattle.std.specs.Prelude.{◌≡◌, ◌++◌, ◌<◌, length, slice_get, Some, IfOk, OnOk};
ghost use Rattle.std.specs.Option.{option_copied};
ghost use Rattle.mos_edits.specs.Texts.{same_id};
ghost use Rattle.deck_rack.specs.Playlists.{played, played_items, played_stories, playlist_of};

use mos_fields::{Id, NoMemory, OptId, pair_ok};
use mos_values::{Item, Story};
use running_order::Order;
use std::alloc::Global;

/// An item of a playlist: what a device is to play.
#[derive(Drop)]
pub struct PlayItem {
    /// itemID
    pub item: Id,
    /// objID
    pub obj: OptId,
}

/// The playlist of an order for a device: its items whose mosID is `mos`, story after story, and nothing where there is no
/// order. The only error is that memory runs out.
pub fn playlist(alloc: Global, order: Option<&Order>, mos: &Id) -> Result<Vec<PlayItem>, NoMemory>
    ensures { IfOk result (λ list. list.items ≡ playlist_of (option_copied order.entry) mos.now) }
{
    let mut list = Vec::new(alloc);
    if let Some(order) = order {
        push_stories(&mut list, order, mos)?;
    }
    Ok(list)
}

// Adds what a device plays of an order.
fn push_stories(list: &mut Vec<PlayItem>, order: &Order, mos: &Id) -> Result<(), NoMemory>
    ensures { OnOk result (list.new.items ≡ list.old.items ++ played_stories mos.now order.now.stories) }
{
    'stories: for place in 0..order.len() {
        push_items(list, story_at(order, place), mos)?;
    }
    Ok(())
}

// The story at a place.
fn story_at(order: &Order, place: usize) -> &Story
    requires { place < length order.now.stories }
    ensures { slice_get order.now.stories place ≡ Some result.now }
{
    match order.story(place) {
        Some(story) => story,
        None => unreachable!(),
    }
}

// Adds what a device plays of a story.
fn push_items(list: &mut Vec<PlayItem>, story: &Story, mos: &Id) -> Result<(), NoMemory>
    ensures { OnOk result (list.new.items ≡ list.old.items ++ played_items mos.now story.now.items) }
{
    push_each(list, story.items.as_slice(), mos)
}

fn push_each(list: &mut Vec<PlayItem>, items: &[Item], mos: &Id) -> Result<(), NoMemory>
    ensures { OnOk result (list.new.items ≡ list.old.items ++ played_items mos.now items.now) }
{
    'items: for item in items {
        push_item(list, item, mos)?;
    }
    Ok(())
}

// Adds an item, where the device plays it.
fn push_item(list: &mut Vec<PlayItem>, item: &Item, mos: &Id) -> Result<(), NoMemory>
    ensures { OnOk result (list.new.items ≡ list.old.items ++ played mos.now item.now) }
{
    if is_of(item, mos) {
        let (item, obj) = pair_ok(item.id.try_clone(), item.obj.try_clone())?;
        list.push(PlayItem { item, obj })?;
    }
    Ok(())
}

// Whether an item is played by a device.
fn is_of(item: &Item, mos: &Id) -> bool
    ensures { result ≡ same_id item.now.mos mos.now }
{
    is_id(&item.mos, mos)
}

fn is_id(mos: &OptId, id: &Id) -> bool
    ensures { result ≡ same_id mos.now id.now }
{
    mos.text().is(id.text())
}
