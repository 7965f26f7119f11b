//! The limits of lists.
ghost use Rattle.std.specs.Prelude.{◌≡◌, ◌+◌, ◌-◌, ◌<◌, ◌≤◌, ℕ, Option, length, slice_get, Some, None, IfOk};
ghost use Rattle.std.specs.Option.{option_copied};
ghost use Rattle.mos_edits.specs.Entries.{over as over_of, over_list, over_send};
ghost use Rattle.mos_edits.specs.Sizes.{list_units, list_all_units as list_all_units_of, send_units as send_units_of, at_most_64_bits};
ghost use Rattle.mos_edits.specs.Orders.{bare};
ghost use Rattle.mos_machines.specs.Small.{IsSmall, IsSmallItem, AreSmallItems, IsSmallOrder};
ghost use Rattle.ncs_core.specs.Accepting.{rows_over};
ghost use Rattle.ncs_core.specs.State.{all_units, one_header};

use crate::orders::{Table, header_of, order_in};
use mos_edits::Edit;
use mos_fields::{Id, NoMemory, Samples};
use mos_machines::limits_count_canonical_encodings;
use mos_values::{Item, Story, StorySend, list_all_units, send_units};
use running_order::Order;
use std::alloc::Global;

// The limits, in code units: of the list of one order, and of that of all.
const LIST_LIMIT: u64 = 8_000_000;

const LIST_ALL_LIMIT: u64 = 8_100_000;

// The same of a roStorySend.
const SEND_LIMIT: u64 = 8_000_000;

// A number of samples fits into 32 bits. Each call whose name has `small_numbers` promises that of a
// value, and does nothing.
fn has_small_number(number: Option<Samples>)
    ensures { IsSmall number }
{
    match number {
        Some(number) => {
            let _count = number.count();
        }
        None => {}
    }
}

fn has_small_numbers(item: &Item)
    ensures { IsSmallItem item.now }
{
    has_small_number(item.ed_start);
    has_small_number(item.ed_dur);
    has_small_number(item.user_timing_dur);
}

fn have_small_numbers(items: &[Item])
    ensures { AreSmallItems items.now }
{
    'items: for item in items {
        has_small_numbers(item);
    }
}

fn story_has_small_numbers(story: &Story)
    ensures { AreSmallItems story.now.items }
{
    have_small_numbers(story.items.as_slice());
}

// The story at a place.
fn story_at(order: &Order, place: usize) -> &Story
    requires { place < length order.now.stories }
    ensures { slice_get order.now.stories place ≡ Some result.now }
{
    match order.story(place) {
        Some(story) => story,
        None => unreachable!(),
    }
}

fn order_has_small_numbers(order: &Order)
    ensures { IsSmallOrder (bare order.now) }
{
    'stories: for place in 0..order.len() {
        story_has_small_numbers(story_at(order, place));
    }
}

// The code units of the list of an order.
fn order_units(order: &Order) -> u64
    ensures { result ≡ at_most_64_bits (list_units (bare order.now)) }
{
    limits_count_canonical_encodings();
    order_has_small_numbers(order);
    order.size_units()
}

/// The code units of the list of all orders where there is at most this one.
pub fn units_alone(alloc: Global, order: Option<&Order>) -> Result<u64, NoMemory>
    ensures { IfOk result (λ units. units ≡ at_most_64_bits (list_all_units_of (one_header (option_copied order.entry)))) }
{
    limits_count_canonical_encodings();
    let headers = header_of(alloc, order)?;
    Ok(list_all_units(&headers))
}

/// The code units of the list of all orders once one is exchanged for another, from those of the list of each of both alone.
pub fn exchanged_units(units: u64, former: u64, new: u64) -> u64
    requires { former ≤ units }
    ensures { result ≡ at_most_64_bits (units - former + new) }
{
    (units - former).saturating_add(new)
}

// The code units, where they pass a limit, or else what passes another.
fn past(limit: u64, units: u64, next: Option<u64>) -> Option<u64>
    requires { limit < 18446744073709551615 }
    ensures { (n : ℕ) → units ≡ at_most_64_bits n → result ≡ over_of limit n next }
{
    if limit < units { Some(units) } else { next }
}

// The code units of a roStorySend.
fn script_units(script: &StorySend) -> u64
    ensures { result ≡ at_most_64_bits (send_units_of script.now) }
{
    limits_count_canonical_encodings();
    send_units(script)
}

/// The code units with which an edit passes a limit by itself: a roStorySend does.
pub fn script_overrun(edit: &Edit) -> Option<u64>
    ensures { result ≡ over_send edit.now }
{
    match edit {
        Edit::Script(script) => past(SEND_LIMIT, script_units(script.as_ref()), None),
        _ => None,
    }
}

// The code units with which the list of an order passes its limit.
fn order_overrun(order: Option<&Order>) -> Option<u64>
    ensures { result ≡ over_list (option_copied order.entry) None }
{
    match order {
        Some(order) => past(LIST_LIMIT, order_units(order), None),
        None => None,
    }
}

/// The code units with which the list of an order passes its limit, or else that of all orders, which has so many, or else what
/// an edit passes by itself.
pub fn overrun(table: &Table, ro: &Id, units: u64, next: Option<u64>) -> Option<u64>
    requires { units ≡ at_most_64_bits (all_units table.now) }
    ensures { result ≡ rows_over table.now ro.now next }
{
    match order_overrun(order_in(table, ro)) {
        Some(units) => Some(units),
        None => past(LIST_ALL_LIMIT, units, next),
    }
}
