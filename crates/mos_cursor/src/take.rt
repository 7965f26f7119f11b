//! The parts of columns, taken from the front of events.
ghost use Rattle.std.specs.Prelude.{◌≡◌, ◌<◌, List, IfOk, IsSome, length, map};
ghost use Rattle.mos_fields.specs.Fields.{name_of};
ghost use Rattle.mos_cursor.specs.Taking.{leaf_taken, leaf_left, leaves_taken, leaves_left, raw_taken, raw_left, raws_taken, raws_left, record_taken, record_left, TakesRecords, message_taken, message_left};
ghost use Rattle.mos_cursor.specs.Slots.{part_of, leaf_of, record_of, nested_part};

use crate::cursor::Cursor;
use crate::slot::{LeafText, Nested, Slot};
use mos_events::Event;
use mos_fields::{Field, NoMemory, Text};
use mos_values::Sequence;
use std::alloc::Global;

/// A text of this field, if it is next.
pub fn take_leaf(cursor: &mut Cursor, field: Field) -> Slot
    ensures taken { part_of result ≡ leaf_taken (name_of field) cursor.old }
    ensures left { cursor.new ≡ leaf_left (name_of field) cursor.old }
{
    if !cursor.is_leaf(field) {
        return Slot::Absent;
    }
    match cursor.pop() {
        Some(
            Event::Leaf {
                attribute,
                text,
                ..
            },
        ) => Slot::Leaf(LeafText { attribute, text }),
        _ => unreachable!(),
    }
}

/// A raw element of this field, if it is next.
pub(crate) fn take_raw(cursor: &mut Cursor, field: Field) -> Slot
    ensures taken { part_of result ≡ raw_taken field cursor.old }
    ensures left { cursor.new ≡ raw_left field cursor.old }
{
    if !cursor.is_raw(field) {
        return Slot::Absent;
    }
    match cursor.pop() {
        Some(Event::Raw { text, .. }) => Slot::Raw(text),
        _ => unreachable!(),
    }
}

/// A record of this field, if it is next.
#[tactic(auto, using(crate::proofs::Lengths::behind_shorter))]
pub(crate) fn take_record(
    alloc: Global,
    cursor: &mut Cursor,
    field: Field,
) -> Result<Option<Nested>, NoMemory>
    ensures taken { IfOk result (λ r. nested_part r ≡ record_taken (name_of field) cursor.old) }
    ensures left { IfOk result (λ r. cursor.new ≡ record_left (name_of field) cursor.old) }
    ensures shorter { IfOk result (λ r. IsSome r → length cursor.new < length cursor.old) }
{
    if !cursor.is_record(field) {
        return Ok(None);
    }
    match cursor.pop() {
        Some(Event::Opens { attribute, .. }) => {
            let inner = cursor.take_inner(alloc)?;
            Ok(Some(Nested { attribute, inner }))
        }
        _ => unreachable!(),
    }
}

/// A message's element, if it is next.
pub(crate) fn take_message(
    alloc: Global,
    cursor: &mut Cursor,
    field: Field,
) -> Result<Slot, NoMemory>
    ensures taken { IfOk result (λ s. part_of s ≡ message_taken field cursor.old) }
    ensures left { IfOk result (λ _. cursor.new ≡ message_left cursor.old) }
{
    if !cursor.is_message() {
        return Ok(Slot::Absent);
    }
    match cursor.pop() {
        Some(Event::Opens { name, attribute }) => {
            let inner = cursor.take_inner(alloc)?;
            Ok(Slot::Message(name, Nested { attribute, inner }))
        }
        Some(Event::Raw { text, .. }) => Ok(Slot::Raw(text)),
        _ => unreachable!(),
    }
}

/// All texts of this field that are next.
pub(crate) fn take_leaves(
    alloc: Global,
    cursor: &mut Cursor,
    field: Field,
) -> Result<Sequence<LeafText>, NoMemory>
    ensures taken { IfOk result (λ ls. map leaf_of ls ≡ leaves_taken (name_of field) cursor.old) }
    ensures left { IfOk result (λ _. cursor.new ≡ leaves_left (name_of field) cursor.old) }
{
    let mut leaves = Sequence::new(alloc);
    'next: while cursor.is_leaf(field) {
        match cursor.pop() {
            Some(
                Event::Leaf {
                    attribute,
                    text,
                    ..
                },
            ) => leaves.push(LeafText { attribute, text })?,
            _ => unreachable!(),
        }
    }
    Ok(leaves)
}

/// All raw elements of this field that are next.
pub(crate) fn take_raws(
    alloc: Global,
    cursor: &mut Cursor,
    field: Field,
) -> Result<Sequence<Text>, NoMemory>
    ensures taken { IfOk result (λ xs. xs ≡ raws_taken field cursor.old) }
    ensures left { IfOk result (λ _. cursor.new ≡ raws_left field cursor.old) }
{
    let mut raws = Sequence::new(alloc);
    'next: while cursor.is_raw(field) {
        match cursor.pop() {
            Some(Event::Raw { text, .. }) => raws.push(text)?,
            _ => unreachable!(),
        }
    }
    Ok(raws)
}

/// All records of this field that are next.
#[tactic(auto, using(crate::proofs::Lengths::record_more, crate::proofs::Lengths::records_end))]
pub(crate) fn take_records(
    alloc: Global,
    cursor: &mut Cursor,
    field: Field,
) -> Result<Sequence<Nested>, NoMemory>
    ensures { IfOk result (λ rs. TakesRecords (name_of field) cursor.old (map record_of rs) cursor.new) }
{
    let mut records = Sequence::new(alloc);
    'next: while let Some(record) = take_record(alloc, cursor, field)? {
        records.push(record)?;
    }
    Ok(records)
}
