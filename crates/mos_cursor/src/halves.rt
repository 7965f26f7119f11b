//! The parts of a record that has many, in two halves.
ghost use Rattle.std.specs.Prelude.{◌≡◌, ◌+◌, ◌++◌, List, IfOk, drop, false, length, take};
ghost use Rattle.mos_fields.specs.Characters.{Text};
ghost use Rattle.mos_tables.specs.Tables.{columns as columns_of, is_ack};
ghost use Rattle.mos_cursor.specs.Accepted.{AllFit, IsAccepted};
ghost use Rattle.mos_cursor.specs.Parts.{parts_events, places};
ghost use Rattle.mos_cursor.specs.Slots.{parts_of};

use crate::cursor::Cursor;
use crate::record::record_slots;
use crate::slot::Slot;
use mos_fields::NoMemory;
use mos_tables::Table;
use std::alloc::Global;

/// The first `A` of these, and the `B` behind them. The only error is that memory runs out.
fn cut<const N: usize, const A: usize, const B: usize>(
    alloc: Global,
    slots: [Slot; N],
) -> Result<([Slot; A], [Slot; B]), NoMemory>
    requires { A + B ≡ N }
    ensures front { IfOk result (λ r. r.0 ≡ take A slots.entry) }
    ensures back { IfOk result (λ r. r.1 ≡ drop A slots.entry) }
{
    let mut front = Vec::from_array(alloc, slots)?;
    let back = front.split_off(A)?;
    match <[Slot; A]>::try_from(front) {
        Ok(front) => match <[Slot; B]>::try_from(back) {
            Ok(back) => Ok((front, back)),
            Err(_) => unreachable!(),
        },
        Err(_) => unreachable!(),
    }
}

/// The parts of a record of this table, as `record_slots` gives them: the first `A`, and the `B` behind them.
///
/// The only error is that memory runs out.
pub fn halves_of<const N: usize, const A: usize, const B: usize>(
    alloc: Global,
    table: Table,
    cursor: Cursor,
) -> Result<([Slot; A], [Slot; B]), NoMemory>
    requires size { N ≡ length (places (columns_of table)) }
    requires halves { A + B ≡ N }
    requires single { is_ack table ≡ false }
    requires accepted { (taken : List Text) × IsAccepted table taken cursor }
    ensures front { IfOk result (λ r. AllFit table (take A (places (columns_of table))) (parts_of r.0)) }
    ensures back { IfOk result (λ r. AllFit table (drop A (places (columns_of table))) (parts_of r.1)) }
    ensures events { IfOk result (λ r. cursor ≡ parts_events (take A (places (columns_of table))) (parts_of r.0) ++ parts_events (drop A (places (columns_of table))) (parts_of r.1)) }
{
    let slots: [Slot; N] = record_slots::<N>(alloc, table, cursor)?;
    let halves = cut::<N, A, B>(alloc, slots)?;
    Ok(halves)
}
