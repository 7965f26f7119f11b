//! Actions and edits, by the first letter of their form. An action of stories has a `_` in place of a story.

use crate::letters::{body, header, id, items, opt_id, opt_ids, stories};
use mos_edits::Edit;
use mos_fields::{Air, FieldFault, Id};
use mos_values::{Action, Boxed};
use running_order::Order;
use std::alloc::Global;
use std::test::Fail;

pub fn first_of(letters: &str) -> char {
    letters.chars().next().unwrap_or('-')
}

fn insert_stories(alloc: Global, target: char, sources: &str) -> Result<Action, FieldFault> {
    let target = opt_id(alloc, target)?;
    let sources = stories(alloc, sources)?;
    Ok(Action::InsertStories { target, sources })
}

fn replace_story(alloc: Global, target: char, sources: &str) -> Result<Action, FieldFault> {
    let target = opt_id(alloc, target)?;
    let sources = stories(alloc, sources)?;
    Ok(Action::ReplaceStory { target, sources })
}

fn move_stories(alloc: Global, target: char, sources: &str) -> Result<Action, FieldFault> {
    let target = opt_id(alloc, target)?;
    let sources = opt_ids(alloc, sources)?;
    Ok(Action::MoveStories { target, sources })
}

fn delete_stories(alloc: Global, sources: &str) -> Result<Action, FieldFault> {
    let sources = opt_ids(alloc, sources)?;
    Ok(Action::DeleteStories { sources })
}

fn swap_stories(alloc: Global, target: char, sources: &str) -> Result<Action, FieldFault> {
    let first = opt_id(alloc, target)?;
    let second = opt_id(alloc, first_of(sources))?;
    Ok(Action::SwapStories { first, second })
}

fn insert_items(
    alloc: Global,
    story: char,
    target: char,
    sources: &str,
) -> Result<Action, FieldFault> {
    let story = opt_id(alloc, story)?;
    let target = opt_id(alloc, target)?;
    let sources = items(alloc, sources)?;
    Ok(Action::InsertItems {
        story,
        target,
        sources,
    })
}

fn replace_item(
    alloc: Global,
    story: char,
    target: char,
    sources: &str,
) -> Result<Action, FieldFault> {
    let story = opt_id(alloc, story)?;
    let target = opt_id(alloc, target)?;
    let sources = items(alloc, sources)?;
    Ok(Action::ReplaceItem {
        story,
        target,
        sources,
    })
}

fn move_items(
    alloc: Global,
    story: char,
    target: char,
    sources: &str,
) -> Result<Action, FieldFault> {
    let story = opt_id(alloc, story)?;
    let target = opt_id(alloc, target)?;
    let sources = opt_ids(alloc, sources)?;
    Ok(Action::MoveItems {
        story,
        target,
        sources,
    })
}

fn delete_items(alloc: Global, story: char, sources: &str) -> Result<Action, FieldFault> {
    let story = opt_id(alloc, story)?;
    let sources = opt_ids(alloc, sources)?;
    Ok(Action::DeleteItems { story, sources })
}

fn swap_items(
    alloc: Global,
    story: char,
    target: char,
    sources: &str,
) -> Result<Action, FieldFault> {
    let story = opt_id(alloc, story)?;
    let first = opt_id(alloc, target)?;
    let second = opt_id(alloc, first_of(sources))?;
    Ok(Action::SwapItems {
        story,
        first,
        second,
    })
}

fn story_action(
    alloc: Global,
    form: char,
    target: char,
    sources: &str,
) -> Result<Action, FieldFault> {
    match form {
        'i' => insert_stories(alloc, target, sources),
        'r' => replace_story(alloc, target, sources),
        'm' => move_stories(alloc, target, sources),
        'd' => delete_stories(alloc, sources),
        _ => swap_stories(alloc, target, sources),
    }
}

fn item_action(
    alloc: Global,
    form: char,
    story: char,
    target: char,
    sources: &str,
) -> Result<Action, FieldFault> {
    match form {
        'i' => insert_items(alloc, story, target, sources),
        'r' => replace_item(alloc, story, target, sources),
        'm' => move_items(alloc, story, target, sources),
        'd' => delete_items(alloc, story, sources),
        _ => swap_items(alloc, story, target, sources),
    }
}

fn act_on(action: Action, ro: Id) -> Edit {
    Edit::Act { ro, action }
}

// The action whose form has that first letter, of stories where the story is a `_`.
fn action(
    alloc: Global,
    form: char,
    story: char,
    target: char,
    sources: &str,
) -> Result<Edit, FieldFault> {
    let ro = id(alloc, 'r')?;
    if story == '_' {
        Ok(act_on(story_action(alloc, form, target, sources)?, ro))
    } else {
        Ok(act_on(item_action(alloc, form, story, target, sources)?, ro))
    }
}

pub fn order_of(alloc: Global, letters: &str) -> Result<Option<Order>, Fail> {
    let body = body(alloc, letters)?;
    Ok(Some(Order::from_body(alloc, &body)?))
}

fn create(alloc: Global, letters: &str) -> Result<Edit, Fail> {
    Ok(Edit::Create(Boxed::new(alloc, body(alloc, letters)?)?))
}

fn replace(alloc: Global, letters: &str) -> Result<Edit, Fail> {
    Ok(Edit::Replace(Boxed::new(alloc, body(alloc, letters)?)?))
}

fn delete(alloc: Global) -> Result<Edit, Fail> {
    Ok(Edit::Delete(id(alloc, 'r')?))
}

fn metadata(alloc: Global) -> Result<Edit, Fail> {
    Ok(Edit::Metadata(Boxed::new(alloc, header(alloc)?.into_patch())?))
}

fn air(alloc: Global) -> Result<Edit, Fail> {
    let ro = id(alloc, 'r')?;
    Ok(Edit::Air {
        ro,
        air: Air::NotReady,
    })
}

// An edit of another kind, by its capital letter, or an action.
pub fn edit_of(
    alloc: Global,
    form: char,
    story: char,
    target: char,
    sources: &str,
) -> Result<Edit, Fail> {
    match form {
        'C' => create(alloc, sources),
        'R' => replace(alloc, sources),
        'D' => delete(alloc),
        'M' => metadata(alloc),
        'A' => air(alloc),
        _ => Ok(action(alloc, form, story, target, sources)?),
    }
}
