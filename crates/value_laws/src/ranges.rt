//! The values that the code's types hold are in range. The function goes over a message and does nothing else: it is
//! called for what it promises.
ghost use Rattle.value_laws.specs.Ranges.{IsSmall, IsItemInRange, AreItemsInRange, IsStoryInRange, AreStoriesInRange, IsObjectInRange, AreObjectsInRange, IsActionInRange, IsInRange};

use mos_fields::{Rev, Samples};
use mos_values::{Action, Item, Message, MosObj, Story};

fn samples_are_small(count: &Option<Samples>)
    ensures { IsSmall count.now }
{
    if let Some(samples) = count {
        let _count = samples.count();
    }
}

fn revision_is_small(rev: &Option<Rev>)
    ensures { IsSmall rev.now }
{
    if let Some(number) = rev {
        let _number = number.number();
    }
}

fn item_is_in_range(item: &Item)
    ensures { IsItemInRange item.now }
{
    samples_are_small(&item.ed_start);
    samples_are_small(&item.ed_dur);
    samples_are_small(&item.user_timing_dur);
}

fn items_are_in_range(items: &[Item])
    ensures { AreItemsInRange items.now }
{
    for item in items {
        item_is_in_range(item);
    }
}

fn story_is_in_range(story: &Story)
    ensures { IsStoryInRange story.now }
{
    items_are_in_range(story.items.as_slice());
}

fn stories_are_in_range(stories: &[Story])
    ensures { AreStoriesInRange stories.now }
{
    for story in stories {
        story_is_in_range(story);
    }
}

fn object_is_in_range(object: &MosObj)
    ensures { IsObjectInRange object.now }
{
    samples_are_small(&object.time_base);
    revision_is_small(&object.rev);
    samples_are_small(&object.dur);
}

fn objects_are_in_range(objects: &[MosObj])
    ensures { AreObjectsInRange objects.now }
{
    for object in objects {
        object_is_in_range(object);
    }
}

fn action_is_in_range(action: &Action)
    ensures { IsActionInRange action.now }
{
    match action {
        Action::InsertStories { sources, .. } => stories_are_in_range(sources.as_slice()),
        Action::ReplaceStory { sources, .. } => stories_are_in_range(sources.as_slice()),
        Action::InsertItems { sources, .. } => items_are_in_range(sources.as_slice()),
        Action::ReplaceItem { sources, .. } => items_are_in_range(sources.as_slice()),
        _ => {}
    }
}

/// The numbers of a message are in range, whatever the message: `Samples` is a `u32`, and `Rev` goes up to 999.
pub fn message_is_in_range(message: &Message)
    ensures { IsInRange message.now }
{
    match message {
        Message::MosAck(ack) => revision_is_small(&ack.rev),
        Message::MosObj(object) => object_is_in_range(object.as_ref()),
        Message::MosReqAll(pause) => {
            let _count = pause.count();
        }
        Message::MosListAll(objects) => objects_are_in_range(objects.as_slice()),
        Message::RoCreate(body) => stories_are_in_range(body.as_ref().stories.as_slice()),
        Message::RoReplace(body) => stories_are_in_range(body.as_ref().stories.as_slice()),
        Message::RoList(body) => stories_are_in_range(body.as_ref().stories.as_slice()),
        Message::RoElementAction { action, .. } => action_is_in_range(action),
        _ => {}
    }
}
