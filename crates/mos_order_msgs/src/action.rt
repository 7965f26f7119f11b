//! Actions as an element_target and an element_source.
ghost use Rattle.std.specs.Prelude.{◌≡◌, ◌++◌, OnOk};
ghost use Rattle.mos_fields.specs.Fields.{name_of};
ghost use Rattle.mos_fields.specs.declared.field.Field.TheVariants as fields;
ghost use Rattle.mos_values.specs.MessageViews.{action_events, ids_events, operation_of_action, source, target_item, target_story};
ghost use Rattle.mos_values.specs.Parts.{must};
ghost use Rattle.mos_values.specs.Views.{items_events, stories_events};
ghost use Rattle.mos_writer.specs.Encoded.{encoded};

use crate::records::{write_items, write_stories};
use mos_fields::{Field, NoMemory, Operation, OptId, OptIds};
use mos_values::{Action, Items, Stories};
use mos_writer::{close, open, write_opt_id};

/// What an action does.
pub fn operation_of(action: &Action) -> Operation
    ensures { result ≡ operation_of_action action.now }
{
    match action {
        Action::InsertStories { .. } => Operation::Insert,
        Action::ReplaceStory { .. } => Operation::Replace,
        Action::InsertItems { .. } => Operation::Insert,
        Action::ReplaceItem { .. } => Operation::Replace,
        Action::MoveStories { .. } => Operation::Move,
        Action::MoveItems { .. } => Operation::Move,
        Action::DeleteStories { .. } => Operation::Delete,
        Action::DeleteItems { .. } => Operation::Delete,
        Action::SwapStories { .. } => Operation::Swap,
        Action::SwapItems { .. } => Operation::Swap,
    }
}

fn write_two(
    out: &mut Vec<u8>,
    field: Field,
    first: &OptId,
    other: Field,
    second: &OptId,
) -> Result<(), NoMemory>
    ensures { OnOk result (out.new.items ≡ out.old.items ++ encoded (must field first.now ++ must other second.now)) }
{
    write_opt_id(out, field, first)?;
    write_opt_id(out, other, second)?;
    Ok(())
}

fn write_target_story(out: &mut Vec<u8>, story: &OptId) -> Result<(), NoMemory>
    ensures { OnOk result (out.new.items ≡ out.old.items ++ encoded (target_story story.now)) }
{
    open(out, Field::ElementTarget)?;
    write_opt_id(out, Field::StoryID, story)?;
    close(out, Field::ElementTarget)?;
    Ok(())
}

fn write_target_item(out: &mut Vec<u8>, story: &OptId, item: &OptId) -> Result<(), NoMemory>
    ensures { OnOk result (out.new.items ≡ out.old.items ++ encoded (target_item story.now item.now)) }
{
    open(out, Field::ElementTarget)?;
    write_two(out, Field::StoryID, story, Field::ItemID, item)?;
    close(out, Field::ElementTarget)?;
    Ok(())
}

fn write_ids(out: &mut Vec<u8>, field: Field, ids: &OptIds) -> Result<(), NoMemory>
    ensures { OnOk result (out.new.items ≡ out.old.items ++ encoded (ids_events field ids.now)) }
{
    for id in ids.as_slice() {
        write_opt_id(out, field, id)?;
    }
    Ok(())
}

fn write_source_stories(out: &mut Vec<u8>, sources: &Stories) -> Result<(), NoMemory>
    ensures { OnOk result (out.new.items ≡ out.old.items ++ encoded (source (stories_events sources.now))) }
{
    open(out, Field::ElementSource)?;
    write_stories(out, sources.as_slice())?;
    close(out, Field::ElementSource)?;
    Ok(())
}

fn write_source_items(out: &mut Vec<u8>, sources: &Items) -> Result<(), NoMemory>
    ensures { OnOk result (out.new.items ≡ out.old.items ++ encoded (source (items_events sources.now))) }
{
    open(out, Field::ElementSource)?;
    write_items(out, sources.as_slice())?;
    close(out, Field::ElementSource)?;
    Ok(())
}

fn write_source_ids(out: &mut Vec<u8>, field: Field, sources: &OptIds) -> Result<(), NoMemory>
    ensures { OnOk result (out.new.items ≡ out.old.items ++ encoded (source (ids_events field sources.now))) }
{
    open(out, Field::ElementSource)?;
    write_ids(out, field, sources)?;
    close(out, Field::ElementSource)?;
    Ok(())
}

fn write_source_two(
    out: &mut Vec<u8>,
    field: Field,
    first: &OptId,
    second: &OptId,
) -> Result<(), NoMemory>
    ensures { OnOk result (out.new.items ≡ out.old.items ++ encoded (source (must field first.now ++ must field second.now))) }
{
    open(out, Field::ElementSource)?;
    write_two(out, field, first, field, second)?;
    close(out, Field::ElementSource)?;
    Ok(())
}

/// Appends the element_target of an action, if there is one, and its element_source.
#[tactic(auto, using(mos_writer::proofs::EncodedLemmas::both_parts), unfolding(mos_values::specs::MessageViews::action_events))]
pub fn write_action(out: &mut Vec<u8>, action: &Action) -> Result<(), NoMemory>
    ensures { OnOk result (out.new.items ≡ out.old.items ++ encoded (action_events action.now)) }
{
    match action {
        Action::InsertStories { target, sources } => {
            write_target_story(out, target)?;
            write_source_stories(out, sources)?;
        }
        Action::ReplaceStory { target, sources } => {
            write_target_story(out, target)?;
            write_source_stories(out, sources)?;
        }
        Action::InsertItems {
            story,
            target,
            sources,
        } => {
            write_target_item(out, story, target)?;
            write_source_items(out, sources)?;
        }
        Action::ReplaceItem {
            story,
            target,
            sources,
        } => {
            write_target_item(out, story, target)?;
            write_source_items(out, sources)?;
        }
        Action::MoveStories { target, sources } => {
            write_target_story(out, target)?;
            write_source_ids(out, Field::StoryID, sources)?;
        }
        Action::MoveItems {
            story,
            target,
            sources,
        } => {
            write_target_item(out, story, target)?;
            write_source_ids(out, Field::ItemID, sources)?;
        }
        Action::DeleteStories { sources } => {
            write_source_ids(out, Field::StoryID, sources)?;
        }
        Action::DeleteItems { story, sources } => {
            write_target_story(out, story)?;
            write_source_ids(out, Field::ItemID, sources)?;
        }
        Action::SwapStories { first, second } => {
            write_source_two(out, Field::StoryID, first, second)?;
        }
        Action::SwapItems {
            story,
            first,
            second,
        } => {
            write_target_story(out, story)?;
            write_source_two(out, Field::ItemID, first, second)?;
        }
    }
    Ok(())
}
