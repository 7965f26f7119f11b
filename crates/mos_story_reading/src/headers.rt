//! Lists of headers from their events.
ghost use Rattle.std.specs.Prelude.{◌≡◌, List, [], ◌∷◌, IfOk, map};
ghost use Rattle.std.specs.List.{AllByRecursion, flat_map};
ghost use Rattle.mos_fields.specs.Characters.{Text};
ghost use Rattle.mos_fields.specs.Fields.{name_of};
ghost use Rattle.mos_fields.specs.declared.field.Field.TheVariants as fields;
ghost use Rattle.mos_tables.specs.Tables.{columns};
ghost use Rattle.mos_tables.specs.declared.table.Table.TheVariants as tables;
ghost use Rattle.mos_values.specs.Views.{headers_events, patch_events};
ghost use Rattle.mos_cursor.specs.Accepted.{AllFit, IsAccepted, RecordsFit};
ghost use Rattle.mos_cursor.specs.Parts.{parts_events, places, record_events};
ghost use Rattle.mos_cursor.specs.Slots.{parts_of, record_of};
ghost use Rattle.mos_cursor.specs.Inner.{Holds, inner_events};

use mos_cursor::{Cursor, Nested, Slot, record_slots};
use mos_fields::NoMemory;
use mos_order_reading::patch_of;
use mos_tables::Table;
use mos_values::{Headers, Sequence};
use std::alloc::Global;

/// The headers of these records, in order. The only error is that memory runs out.
#[tactic(auto, using(mos_cursor::proofs::Read::read_start, mos_cursor::proofs::Read::read_next, mos_cursor::proofs::Read::read_more, mos_cursor::proofs::Read::read_end))]
fn read_headers(alloc: Global, inner: Sequence<Nested>) -> Result<Headers, NoMemory>
    requires { AllByRecursion (Holds tables.HeaderPatch) inner }
    ensures { IfOk result (λ headers. map patch_events headers ≡ map inner_events inner) }
{
    let mut rest = inner.into_vec();
    rest.reverse();
    let mut headers = Headers::new(alloc);
    'next: while let Some(record) = rest.pop() {
        headers.push(patch_of(alloc, record.inner)?)?;
    }
    Ok(headers)
}

/// The headers of these records of a list, in order.
fn headers_in(alloc: Global, inner: Sequence<Nested>) -> Result<Headers, NoMemory>
    requires { RecordsFit tables.RoListAll tables.HeaderPatch [] (map record_of inner) }
    ensures { IfOk result (λ hs. headers_events hs ≡ flat_map (record_events (name_of fields.RoTag)) (map record_of inner)) }
{
    let headers = read_headers(alloc, inner)?;
    Ok(headers)
}

/// The headers of this part.
fn headers_with(alloc: Global, headers: Slot) -> Result<Headers, NoMemory>
    requires { AllFit tables.RoListAll (places (columns tables.RoListAll)) (parts_of (headers ∷ [])) }
    ensures { IfOk result (λ hs. headers_events hs ≡ parts_events (places (columns tables.RoListAll)) (parts_of (headers ∷ []))) }
{
    match headers {
        Slot::Records(inner) => headers_in(alloc, inner),
        _ => unreachable!(),
    }
}

/// The headers of these events, in order. The only error is that memory runs out.
pub fn headers_of(alloc: Global, cursor: Cursor) -> Result<Headers, NoMemory>
    requires { (taken : List Text) × IsAccepted tables.RoListAll taken cursor }
    ensures { IfOk result (λ hs. headers_events hs ≡ cursor) }
{
    let slots: [Slot; 1] = record_slots::<1>(alloc, Table::RoListAll, cursor)?;
    let [headers] = slots;
    headers_with(alloc, headers)
}
