//! What is said of an order.
ghost use Rattle.std.specs.Prelude.{◌≡◌, [], ◌∷◌, ◌++◌, ◌+◌, map, drop, length, OnOk, string_bytes, codes};
ghost use Rattle.std.specs.List.{flat_map};
ghost use Rattle.std.specs.Option.{option_copied};
ghost use Rattle.mos_edits.specs.Orders.{Item};
ghost use Rattle.mos_edits.specs.Scripts.{script_of};
ghost use Rattle.world_scripts.specs.Lines.{utf8};
ghost use Rattle.world_scripts.specs.Listing.{items_word, script_word, story_word, order_words, order_line};
ghost use Rattle.state_listing.specs.Words.{behind};

use crate::texts::{add_id, add_number, add_word, end_line, push_id, push_word};
use mos_fields::{Id, NoMemory, OptId};
use mos_values::{Item, Story};
use ncs_core::Ncs;
use rundown_log::Keeper;
use running_order::Order;
use std::alloc::Global;

/// Appends itemIDs, each behind a comma.
fn push_more_items(alloc: Global, line: &mut String, items: &[Item]) -> Result<(), NoMemory>
    ensures { OnOk result (string_bytes line.new ≡ string_bytes line.old ++ flat_map (λ (i : Item). 44 ∷ utf8 i.id) items.now) }
{
    'items: for item in items {
        push_word(line, ",")?;
        push_id(alloc, line, &item.id)?;
    }
    Ok(())
}

/// Appends the itemIDs of a story behind a colon, with commas between; nothing where it has no items.
fn push_items(alloc: Global, line: &mut String, items: &[Item]) -> Result<(), NoMemory>
    ensures { OnOk result (string_bytes line.new ≡ string_bytes line.old ++ items_word items.now) }
{
    match items {
        [] => Ok(()),
        [first, more @ ..] => {
            push_word(line, ":")?;
            push_id(alloc, line, &first.id)?;
            push_more_items(alloc, line, more)
        }
    }
}

/// Appends `!` where a story of an order has a script.
fn push_script(line: &mut String, order: &Order, story: &Story) -> Result<(), NoMemory>
    ensures { OnOk result (string_bytes line.new ≡ string_bytes line.old ++ script_word (script_of order.now story.now.id)) }
{
    let id = OptId::from_id(story.id.try_clone()?);
    match order.script(&id) {
        Some(_) => push_word(line, "!"),
        None => Ok(()),
    }
}

/// Appends a story of an order behind a space.
fn add_story(alloc: Global, line: &mut String, order: &Order, story: &Story) -> Result<(), NoMemory>
    ensures { OnOk result (string_bytes line.new ≡ string_bytes line.old ++ behind (story_word order.now story.now ∷ [])) }
{
    push_word(line, " ")?;
    push_id(alloc, line, &story.id)?;
    push_script(line, order, story)?;
    push_items(alloc, line, story.items.as_slice())
}

/// Appends the story at a place behind a space; what is still to come is then what stands behind it.
fn add_story_at(
    alloc: Global,
    line: &mut String,
    order: &Order,
    place: usize,
) -> Result<(), NoMemory>
    ensures { OnOk result (string_bytes line.new ++ behind (map (story_word order.now) (drop (place + 1) order.now.stories)) ≡ string_bytes line.old ++ behind (map (story_word order.now) (drop place order.now.stories))) }
{
    match order.story(place) {
        Some(story) => add_story(alloc, line, order, story),
        None => Ok(()),
    }
}

/// Appends the stories of an order, each behind a space.
fn add_stories(alloc: Global, line: &mut String, order: &Order) -> Result<(), NoMemory>
    ensures { OnOk result (string_bytes line.new ≡ string_bytes line.old ++ behind (map (story_word order.now) order.now.stories)) }
{
    'places: for place in 0..order.len() {
        add_story_at(alloc, line, order, place)?;
    }
    Ok(())
}

/// Appends the words of an order, or that there is none.
pub fn add_order(alloc: Global, line: &mut String, order: Option<&Order>) -> Result<(), NoMemory>
    ensures { OnOk result (string_bytes line.new ≡ string_bytes line.old ++ behind (order_words (option_copied order.entry))) }
{
    match order {
        None => add_word(line, "none"),
        Some(order) => {
            if order.len() == 0 {
                add_word(line, "empty")
            } else {
                add_stories(alloc, line, order)
            }
        }
    }
}

/// Appends the line of an order: how many entries it has, and what it is after them.
pub fn push_order_line<K: Keeper>(
    alloc: Global,
    out: &mut Vec<u8>,
    ncs: &Ncs<K>,
    ro: &Id,
) -> Result<(), NoMemory>
    ensures { OnOk result (out.new.items ≡ out.old.items ++ order_line ncs.now.server.journal ro.now) }
{
    let mut line = String::new(alloc);
    push_word(&mut line, "order")?;
    add_id(alloc, &mut line, ro)?;
    add_number(alloc, &mut line, ncs.entries(ro))?;
    add_order(alloc, &mut line, ncs.order(ro))?;
    end_line(out, &line)
}
