//! Looking for a report, and putting one in its place.
ghost use Rattle.std.specs.Prelude.{◌≡◌, ◌+◌, ◌<◌, ◌≤◌, [], ◌∷◌, ◌++◌, map, Some, if◌then◌else◌, length, reverse, filter, slice_set, vec_len, vec_capacity, IfOk, OnOk};
ghost use Rattle.mos_values.specs.Names.{text_or_none};
ghost use Rattle.std.specs.List.{position_from};
ghost use Rattle.status_board.specs.Board.{group_of, groups, is_of_element as is_of_element_so, is_of_order as is_of_order_so};
ghost use Rattle.status_board.specs.Links.{last_by};
ghost use Rattle.status_board.specs.Numbers.{element_of, order_of};

use crate::elements::{is_of_element, is_of_order};
use crate::links::Links;
use crate::numbers::{element_number, order_number};
use mos_fields::{Level, NoMemory, OptId, Text, let_go};
use mos_values::{AckGroup, ElementStat};
use std::alloc::Global;
use std::mem::replace;

/// The number of a device, and what it reported.
pub(crate) type Row = (u32, ElementStat);

// This place, or another.
fn here_or(is_here: bool, here: usize, other: Option<usize>) -> Option<usize>
    ensures { result ≡ (if is_here then Some here else other) }
{
    if is_here { Some(here) } else { other }
}

/// The place of the first report of an element, from 0. An absent identifier counts as this empty one.
pub(crate) fn find_row(
    rows: &[Row],
    elements: &Links,
    d: u32,
    ro: &Text,
    level: Level,
    story: &Text,
    item: &Text,
    nothing: &Text,
) -> Option<usize>
    requires numbers { elements.now.numbers ≡ map element_of rows.now }
    requires nothing { nothing.now ≡ [] }
    ensures { result ≡ position_from (is_of_element_so d ro.now level story.now item.now) 0 rows.now }
{
    let n = element_number(d, ro, level, story, item);
    let mut found = None;
    let mut at = elements.last(n);
    'next: while at > 0 {
        let here = at - 1;
        let same = is_of_element(d, ro, level, story, item, &rows[here], nothing);
        found = here_or(same, here, found);
        at = elements.before(here);
    }
    found
}

/// The place of the last report of a device on an order, counted from 1; 0 where there is none.
pub(crate) fn last_row(rows: &[Row], orders: &Links, d: u32, ro: &Text) -> usize
    requires { orders.now.numbers ≡ map order_of rows.now }
    ensures { result ≡ last_by (is_of_order_so d ro.now) rows.now }
{
    let n = order_number(d, ro);
    let mut at = orders.last(n);
    'next: while at > 0 {
        let here = at - 1;
        if is_of_order(d, ro, &rows[here]) {
            return at;
        }
        at = orders.before(here);
    }
    0
}

// A report as a roAck tells it.
fn group(alloc: Global, row: &Row) -> Result<AckGroup, NoMemory>
    ensures { IfOk result (λ g. g ≡ group_of row.now) }
{
    group_of_copy(alloc, row.1.try_clone()?)
}

// The same of a copy, which it takes apart.
fn group_of_copy(alloc: Global, s: ElementStat) -> Result<AckGroup, NoMemory>
    ensures { IfOk result (λ g. g ≡ group_of (0, s)) }
{
    let ElementStat {
        level: _,
        ro,
        story,
        item,
        obj,
        channel,
        status,
        time: _,
    } = s;
    let_go(ro);
    Ok(AckGroup {
        story: id_or_empty(alloc, story),
        item: id_or_empty(alloc, item),
        obj: id_or_empty(alloc, obj),
        channel,
        status,
    })
}

// An identifier, or an empty one. It takes no memory.
fn id_or_empty(alloc: Global, given: Option<OptId>) -> OptId
    ensures { result ≡ text_or_none given }
{
    match given {
        Some(id) => id,
        None => OptId::from_sized(Text::new(alloc)),
    }
}

// Appends a report's group where it is of this device and order.
fn push_group(
    alloc: Global,
    out: &mut Vec<AckGroup>,
    d: u32,
    ro: &Text,
    row: &Row,
) -> Result<(), NoMemory>
    ensures { OnOk result (out.new.items ≡ out.old.items ++ groups d ro.now (row.now ∷ [])) }
{
    if is_of_order(d, ro, row) {
        out.push(group(alloc, row)?)?;
    }
    Ok(())
}

// What a device reported on an order, the last first.
fn groups_behind(
    alloc: Global,
    rows: &[Row],
    orders: &Links,
    d: u32,
    ro: &Text,
) -> Result<Vec<AckGroup>, NoMemory>
    requires { orders.now.numbers ≡ map order_of rows.now }
    ensures { IfOk result (λ out. out.items ≡ reverse (groups d ro.now rows.now)) }
{
    let n = order_number(d, ro);
    let mut out = Vec::new(alloc);
    let mut at = orders.last(n);
    'next: while at > 0 {
        let here = at - 1;
        push_group(alloc, &mut out, d, ro, &rows[here])?;
        at = orders.before(here);
    }
    Ok(out)
}

/// What a device reported on an order, in the order of the board.
pub(crate) fn groups_of(
    alloc: Global,
    rows: &[Row],
    orders: &Links,
    d: u32,
    ro: &Text,
) -> Result<Vec<AckGroup>, NoMemory>
    requires { orders.now.numbers ≡ map order_of rows.now }
    ensures { IfOk result (λ out. out.items ≡ groups d ro.now rows.now) }
{
    let mut out = groups_behind(alloc, rows, orders, d, ro)?;
    out.reverse();
    Ok(out)
}

/// Puts a report in the place of another. It takes no memory.
pub(crate) fn put_over(rows: &mut Vec<Row>, at: usize, row: Row)
    requires { at < vec_len rows.old }
    ensures items { rows.new.items ≡ slice_set rows.old.items at row }
    ensures len { vec_len rows.new ≡ vec_len rows.old }
    ensures capacity { vec_capacity rows.new ≡ vec_capacity rows.old }
{
    let_go(replace(&mut rows[at], row));
}

/// Puts a report behind the others, for which there is room. It takes no memory.
pub(crate) fn put_last(rows: &mut Vec<Row>, row: Row)
    requires { vec_len rows.old < vec_capacity rows.old }
    ensures items { rows.new.items ≡ rows.old.items ++ row ∷ [] }
    ensures len { vec_len rows.new ≡ vec_len rows.old + 1 }
    ensures capacity { vec_capacity rows.old ≤ vec_capacity rows.new }
{
    rows.push(row).unwrap();
}
