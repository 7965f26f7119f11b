//! The edits and the roIDs in memory are within the limits of their fields. The functions go over them and do nothing else:
//! they are called for what they promise.
ghost use Rattle.std.specs.Prelude.{ℕ};
ghost use Rattle.mos_edits.specs.Entries.{entry_of};
ghost use Rattle.mos_edits.specs.Orders.{edit_ro};
ghost use Rattle.mos_machines.specs.Small.{AreSmallItems, AreSmallStories, IsSmall, IsSmallItem, IsSmallOrder};
ghost use Rattle.world_scripts.specs.WorldEvents.{pairing_event_of};
ghost use Rattle.world_laws.specs.World.{WorldEvent as events};
ghost use Rattle.written_laws.specs.Lengths.{HasShortIds, HasShortTarget, IsShort, IsSmallAction, IsSmallEdit, KeepsFieldLimits};
ghost use Rattle.written_laws.specs.Worlds.{KeepsLimits};

use mos_edits::Edit;
use mos_fields::{Id, OptId, Samples};
use mos_values::{Action, HeaderPatch, Item, OrderBody, Story, StorySend};
use world_scripts::PairingEvent;

fn samples_are_small(count: &Option<Samples>)
    ensures { IsSmall count.now }
{
    if let Some(samples) = count {
        let _count = samples.count();
    }
}

fn item_is_small(item: &Item)
    ensures { IsSmallItem item.now }
{
    samples_are_small(&item.ed_start);
    samples_are_small(&item.ed_dur);
    samples_are_small(&item.user_timing_dur);
}

fn items_are_small(items: &[Item])
    ensures { AreSmallItems items.now }
{
    'items: for item in items {
        item_is_small(item);
    }
}

fn story_is_small(story: &Story)
    ensures { AreSmallItems story.now.items }
{
    items_are_small(story.items.as_slice());
}

fn stories_are_small(stories: &[Story])
    ensures { AreSmallStories stories.now }
{
    'stories: for story in stories {
        story_is_small(story);
    }
}

fn order_is_small(body: &OrderBody)
    ensures { IsSmallOrder body.now }
{
    stories_are_small(body.stories.as_slice());
}

fn action_is_small(action: &Action)
    ensures { IsSmallAction action.now }
{
    match action {
        Action::InsertStories { sources, .. } => stories_are_small(sources.as_slice()),
        Action::ReplaceStory { sources, .. } => stories_are_small(sources.as_slice()),
        Action::InsertItems { sources, .. } => items_are_small(sources.as_slice()),
        Action::ReplaceItem { sources, .. } => items_are_small(sources.as_slice()),
        _ => {}
    }
}

fn edit_is_small(edit: &Edit)
    ensures { IsSmallEdit edit.now }
{
    match edit {
        Edit::Create(body) => order_is_small(body.as_ref()),
        Edit::Replace(body) => order_is_small(body.as_ref()),
        Edit::Act { ro: _, action } => action_is_small(action),
        _ => {}
    }
}

fn id_is_short(id: &Id)
    ensures { IsShort id.now }
{
    let _text = id.text();
}

fn opt_id_is_short(id: &OptId)
    ensures { IsShort id.now }
{
    let _text = id.text();
}

fn two_ids_are_short(first: &OptId, second: &OptId)
    ensures first { IsShort first.now }
    ensures second { IsShort second.now }
{
    opt_id_is_short(first);
    opt_id_is_short(second);
}

fn target_is_short(action: &Action)
    ensures { HasShortTarget action.now }
{
    match action {
        Action::InsertStories { target, sources: _ } => opt_id_is_short(target),
        Action::ReplaceStory { target, sources: _ } => opt_id_is_short(target),
        Action::InsertItems {
            story,
            target,
            sources: _,
        } => two_ids_are_short(story, target),
        Action::ReplaceItem {
            story,
            target,
            sources: _,
        } => two_ids_are_short(story, target),
        Action::MoveStories { target, sources: _ } => opt_id_is_short(target),
        Action::MoveItems {
            story,
            target,
            sources: _,
        } => two_ids_are_short(story, target),
        Action::DeleteStories { sources: _ } => {}
        Action::DeleteItems { story, sources: _ } => opt_id_is_short(story),
        Action::SwapStories { first, second } => two_ids_are_short(first, second),
        Action::SwapItems {
            story,
            first,
            second,
        } => {
            opt_id_is_short(story);
            two_ids_are_short(first, second);
        }
    }
}

fn patch_is_short(patch: &HeaderPatch)
    ensures { IsShort patch.now.ro }
{
    id_is_short(&patch.ro);
}

fn order_is_short(body: &OrderBody)
    ensures { IsShort body.now.header.ro }
{
    id_is_short(&body.header.ro);
}

fn script_is_short(script: &StorySend)
    ensures { IsShort script.now.ro }
{
    id_is_short(&script.ro);
}

fn ids_are_short(edit: &Edit)
    ensures ids { HasShortIds edit.now }
    ensures ro { IsShort (edit_ro edit.now) }
{
    match edit {
        Edit::Create(body) => order_is_short(body.as_ref()),
        Edit::Replace(body) => order_is_short(body.as_ref()),
        Edit::Delete(ro) => id_is_short(ro),
        Edit::Metadata(patch) => patch_is_short(patch.as_ref()),
        Edit::Act { ro, action } => {
            id_is_short(ro);
            target_is_short(action);
        }
        Edit::Air { ro, air: _ } => id_is_short(ro),
        Edit::Script(script) => script_is_short(script.as_ref()),
    }
}

/// An edit that is commanded is within the limits of fields.
pub fn edit_keeps_limits(edit: &Edit)
    ensures { KeepsFieldLimits (entry_of edit.now) }
{
    edit_is_small(edit);
    ids_are_short(edit);
}

/// An order is asked for by a short roID.
pub fn event_keeps_limits(event: &PairingEvent)
    ensures { (d : ℕ) → KeepsLimits (events.AtDevice d (pairing_event_of event.now)) }
{
    match event {
        PairingEvent::Want { ro } => id_is_short(ro),
        _ => {}
    }
}
