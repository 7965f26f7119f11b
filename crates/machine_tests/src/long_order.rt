//! A long order. Look-ups and its size don't walk it, so that millions of them end soon.

use crate::letters::{header, opt_id};
use element_action::act;
use mos_fields::{FieldFault, Id, OptId, let_go};
use mos_values::{Action, OrderBody, Stories, Story};
use running_order::Order;
use std::alloc::Global;
use std::process::Abort;
use std::test::Fail;

const DIGITS: [char; 10] = ['0', '1', '2', '3', '4', '5', '6', '7', '8', '9'];

fn digit(number: u32) -> char {
    DIGITS[(number % 10) as usize]
}

// An ID of five digits.
fn numbered(alloc: Global, number: u32) -> Result<Id, FieldFault> {
    let letters = [
        digit(number / 10_000),
        digit(number / 1_000),
        digit(number / 100),
        digit(number / 10),
        digit(number),
    ];
    Id::try_new(alloc, &letters)
}

// A hundred stories, put in at the end.
fn insert_hundred(alloc: Global, first: u32) -> Result<Action, FieldFault> {
    let mut sources = Stories::new(alloc);
    for number in first..first.saturating_add(100) {
        sources.push(Story::new(alloc, numbered(alloc, number)?))?;
    }
    let target = opt_id(alloc, '-')?;
    Ok(Action::InsertStories { target, sources })
}

// 20,000 stories.
fn long_order(rt: &impl Abort, alloc: Global) -> Result<Order, Fail> {
    let mut order = Order::from_body(alloc, &OrderBody::new(alloc, header(alloc)?))?;
    for hundred in 0..200 {
        let insert = insert_hundred(alloc, 100 * hundred)?;
        let done = act(alloc, &mut order, &insert).is_ok();
        let_go(insert);
        assert!(rt; done);
    }
    Ok(order)
}

fn finds_often(order: &Order, id: &OptId, place: usize) -> bool {
    for _ in 0..4_000_000 {
        if order.story_place(id) != Some(place) {
            return false;
        }
    }
    true
}

#[test]
fn finds_the_last_of_many_stories(rt: HostRuntime) -> Result<(), Fail> {
    let last = OptId::from_id(numbered(rt.alloc(), 19_999)?);
    let order = long_order(&rt, rt.alloc())?;
    let found = finds_often(&order, &last, 19_999);
    let_go(order);
    assert!(rt; found);
    Ok(())
}

// `<roList><roID>r</roID><roSlug></roSlug></roList>` has 48 code units, and `<story><storyID>00000</storyID></story>`
// has 39.
fn keeps_its_size(order: &mut Order) -> bool {
    for _ in 0..4_000_000 {
        if order.size_units() != 48 + 39 * 20_000 {
            return false;
        }
    }
    if order.len() > 0 {
        order.remove_story(0);
    }
    order.size_units() == 48 + 39 * 19_999
}

#[test]
fn keeps_the_size_of_many_stories(rt: HostRuntime) -> Result<(), Fail> {
    let mut order = long_order(&rt, rt.alloc())?;
    let kept = keeps_its_size(&mut order);
    let_go(order);
    assert!(rt; kept);
    Ok(())
}
