//! Orders of a few stories. A capital letter is a story, and the small letters behind it are its items.

use element_action::ActFault;
use mos_fields::{FieldFault, Id, OptId, OptIds, Slug};
use mos_values::{Header, Item, Items, OrderBody, Stories, Story, Unreads};
use running_order::Order;
use std::alloc::Global;
use std::test::Fail;

pub fn id(alloc: Global, letter: char) -> Result<Id, FieldFault> {
    Id::try_new(alloc, &[letter])
}

// An ID that may be empty, which a `-` stands for.
pub fn opt_id(alloc: Global, letter: char) -> Result<OptId, FieldFault> {
    if letter == '-' {
        return OptId::try_new(alloc, &[]);
    }
    OptId::try_new(alloc, &[letter])
}

pub fn opt_ids(alloc: Global, letters: &str) -> Result<OptIds, FieldFault> {
    let mut ids = OptIds::new(alloc);
    for letter in letters.chars() {
        ids.push(opt_id(alloc, letter)?)?;
    }
    Ok(ids)
}

fn item(alloc: Global, letter: char) -> Result<Item, FieldFault> {
    let id = id(alloc, letter)?;
    let obj = opt_id(alloc, '-')?;
    let mos = opt_id(alloc, '-')?;
    Ok(Item {
        id,
        slug: None,
        obj,
        mos,
        mos_abstract: None,
        obj_paths: None,
        channel: None,
        ed_start: None,
        ed_dur: None,
        user_timing_dur: None,
        trigger: None,
        macro_in: None,
        macro_out: None,
        metadata: Unreads::new(alloc),
        others: Unreads::new(alloc),
    })
}

pub fn items(alloc: Global, letters: &str) -> Result<Items, FieldFault> {
    let mut list = Items::new(alloc);
    for letter in letters.chars() {
        list.push(item(alloc, letter)?)?;
    }
    Ok(list)
}

pub fn stories(alloc: Global, letters: &str) -> Result<Stories, FieldFault> {
    let mut list = Stories::new(alloc);
    for letter in letters.chars() {
        list.push(Story::new(alloc, id(alloc, letter)?))?;
    }
    Ok(list)
}

pub fn header(alloc: Global) -> Result<Header, FieldFault> {
    let ro = id(alloc, 'r')?;
    let slug = Slug::try_new(alloc, &[])?;
    Ok(Header {
        ro,
        slug,
        channel: None,
        ed_start: None,
        ed_dur: None,
        trigger: None,
        macro_in: None,
        macro_out: None,
        metadata: Unreads::new(alloc),
        others: Unreads::new(alloc),
    })
}

// A story with items.
fn story(alloc: Global, letters: &str) -> Result<Story, Fail> {
    let mut rest = letters.chars();
    let mut story = Story::new(alloc, id(alloc, rest.next().unwrap_or('-'))?);
    for letter in rest {
        story.push_item(item(alloc, letter)?)?;
    }
    Ok(story)
}

// Stories, each with its items, between which a `+` stands.
pub fn body(alloc: Global, letters: &str) -> Result<OrderBody, Fail> {
    let mut body = OrderBody::new(alloc, header(alloc)?);
    for word in letters.split('+') {
        body.push_story(story(alloc, word)?)?;
    }
    Ok(body)
}

// The letters of an order, or a `-` where there is none.
pub fn letters_of(alloc: Global, order: &Option<Order>) -> Result<Vec<char>, FieldFault> {
    let mut letters = Vec::new(alloc);
    match order {
        None => letters.push('-')?,
        Some(order) => {
            for place in 0..order.len() {
                if let Some(story) = order.story(place) {
                    story.id.push_to(&mut letters)?;
                    for item in story.items.as_slice() {
                        item.id.push_to(&mut letters)?;
                    }
                }
            }
        }
    }
    Ok(letters)
}

// Nothing for Ok; else a `-` or a `+` for Missing and AlreadyThere, and the ID.
pub fn letters_of_answer(
    alloc: Global,
    answer: &Result<(), ActFault>,
) -> Result<Vec<char>, FieldFault> {
    let mut letters = Vec::new(alloc);
    match answer {
        Ok(()) => {}
        Err(ActFault::Missing { id }) => {
            letters.push('-')?;
            id.push_to(&mut letters)?;
        }
        Err(ActFault::AlreadyThere { id }) => {
            letters.push('+')?;
            id.push_to(&mut letters)?;
        }
        Err(ActFault::NoMemory) => letters.push('!')?,
    }
    Ok(letters)
}
