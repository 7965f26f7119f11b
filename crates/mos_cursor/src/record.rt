//! The parts of a record.
ghost use Rattle.std.specs.Prelude.{◌≡◌, ◌<◌, List, IfOk, OnOk, length, slice_set, true, false};
ghost use Rattle.mos_fields.specs.Characters.{Text};
ghost use Rattle.mos_fields.specs.Fields.{same_field};
ghost use Rattle.mos_fields.specs.declared.field.Field.TheVariants.{Metadata as metadata_field};
ghost use Rattle.mos_tables.specs.Tables.{columns as columns_of, is_ack};
ghost use Rattle.mos_cursor.specs.Parts.{parts_events, places};
ghost use Rattle.mos_cursor.specs.Accepted.{IsAccepted, AllFit};
ghost use Rattle.mos_cursor.specs.Taking.{Takes, is_one_at_most};
ghost use Rattle.mos_cursor.specs.Slots.{part_of, parts_of, Filled};

use crate::cursor::{Cursor, is_field};
use crate::slot::Slot;
use crate::take::{
    take_leaf, take_leaves, take_message, take_raw, take_raws, take_record, take_records,
};
use mos_fields::{Field, NoMemory};
use mos_tables::{Column, Often, Shape, Table};
use std::alloc::Global;
use std::array::from_fn;

/// Whether at most one element of the column stands in a record.
fn is_single(often: Often) -> bool
    ensures { result ≡ is_one_at_most often }
{
    matches!(often, Often::One | Often::Optional)
}

/// Takes the part of a column.
fn take_slot(alloc: Global, cursor: &mut Cursor, column: Column) -> Result<Slot, NoMemory>
    ensures { IfOk result (λ s. Takes column cursor.old (part_of s) cursor.new) }
{
    let single = is_single(column.often);
    match column.shape {
        Shape::Leaf(_) => {
            if single {
                return Ok(take_leaf(cursor, column.field));
            }
            Ok(Slot::Leaves(take_leaves(alloc, cursor, column.field)?))
        }
        Shape::Raw => {
            if single {
                return Ok(take_raw(cursor, column.field));
            }
            Ok(Slot::Raws(take_raws(alloc, cursor, column.field)?))
        }
        Shape::Record(_) => {
            if single {
                return match take_record(alloc, cursor, column.field)? {
                    Some(record) => Ok(Slot::Record(record)),
                    None => Ok(Slot::Absent),
                };
            }
            Ok(Slot::Records(take_records(alloc, cursor, column.field)?))
        }
        Shape::Message => take_message(alloc, cursor, column.field),
    }
}

/// Puts a slot in its place.
#[inline(always)]
fn put(slots: &mut [Slot], at: usize, slot: Slot)
    requires { at < length slots.old }
    ensures { slots.new ≡ slice_set slots.old at slot }
{
    slots[at] = slot;
}

/// Fills the slots with the parts of these columns, one for each of their places.
#[tactic(auto, using(crate::proofs::Fill::fill_start, crate::proofs::Fill::fill_one, crate::proofs::Fill::fill_two, crate::proofs::Fill::fill_end))]
fn fill(
    alloc: Global,
    cursor: &mut Cursor,
    columns: &[Column],
    slots: &mut [Slot],
) -> Result<(), NoMemory>
    requires { length slots.old ≡ length (places columns.now) }
    ensures { OnOk result (Filled columns.now cursor.old slots.new cursor.new) }
{
    let mut at = 0;
    for column in columns {
        let slot = take_slot(alloc, cursor, *column)?;
        put(slots, at, slot);
        at += 1;
        if is_field(column.field, Field::Metadata) {
            let kept = take_raws(alloc, cursor, Field::Kept)?;
            put(slots, at, Slot::Raws(kept));
            at += 1;
        }
    }
    Ok(())
}

/// The parts of a record of this table, one for each of its places: its columns, and behind mosExternalMetadata the
/// elements that the table does not name. The texts move out of the cursor.
///
/// The only error is that memory runs out.
#[inline(always)]
#[tactic(auto, using(crate::proofs::Fill::filled_fits, crate::proofs::Fill::filled_events))]
pub fn record_slots<const N: usize>(
    alloc: Global,
    table: Table,
    mut cursor: Cursor,
) -> Result<[Slot; N], NoMemory>
    requires size { N ≡ length (places (columns_of table)) }
    requires single { is_ack table ≡ false }
    requires accepted { (taken : List Text) × IsAccepted table taken cursor }
    ensures fit { IfOk result (λ s. AllFit table (places (columns_of table)) (parts_of s)) }
    ensures events { IfOk result (λ s. cursor ≡ parts_events (places (columns_of table)) (parts_of s)) }
{
    let mut slots: [Slot; N] = from_fn(|_| Slot::Absent);
    fill(alloc, &mut cursor, table.columns(), &mut slots)?;
    Ok(slots)
}
