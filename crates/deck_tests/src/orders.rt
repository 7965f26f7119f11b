//! Orders of one story, whose items have the mosID `dev1`.

use crate::messages::{header, id, item};
use mos_fields::let_go;
use mos_values::{OrderBody, Story};
use running_order::Order;
use std::alloc::Global;
use std::test::Fail;

// Adds these items, each of which has the objID O and its own number.
fn push_items(alloc: Global, story: &mut Story, numbers: &str) -> Result<(), Fail> {
    for number in numbers.split(' ') {
        let obj = format!(in alloc; "O{number}")?;
        story.push_item(item(alloc, number, &obj)?)?;
    }
    Ok(())
}

// The story A with these items.
fn story(alloc: Global, numbers: &str) -> Result<Story, Fail> {
    let mut story = Story::new(alloc, id(alloc, "A")?);
    match push_items(alloc, &mut story, numbers) {
        Ok(()) => Ok(story),
        Err(fault) => {
            let_go(story);
            Err(fault)
        }
    }
}

// The body of the order R1, without stories.
fn body(alloc: Global) -> Result<OrderBody, Fail> {
    Ok(OrderBody::new(alloc, header(alloc)?))
}

fn push_story(alloc: Global, body: &mut OrderBody, numbers: &str) -> Result<(), Fail> {
    body.push_story(story(alloc, numbers)?)?;
    Ok(())
}

fn made(alloc: Global, body: &OrderBody) -> Result<Order, Fail> {
    Ok(Order::from_body(alloc, body)?)
}

/// The order R1 of the story A with these items.
pub fn order(alloc: Global, numbers: &str) -> Result<Order, Fail> {
    let mut body = body(alloc)?;
    let order = match push_story(alloc, &mut body, numbers) {
        Ok(()) => made(alloc, &body),
        Err(fault) => Err(fault),
    };
    let_go(body);
    order
}
