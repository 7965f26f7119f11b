//! Lists of media objects from their events.
ghost use Rattle.std.specs.Prelude.{◌≡◌, List, [], ◌∷◌, IfOk, map};
ghost use Rattle.std.specs.List.{AllByRecursion, flat_map};
ghost use Rattle.mos_fields.specs.Characters.{Text};
ghost use Rattle.mos_fields.specs.Fields.{name_of};
ghost use Rattle.mos_fields.specs.declared.field.Field.TheVariants as fields;
ghost use Rattle.mos_tables.specs.Tables.{columns};
ghost use Rattle.mos_tables.specs.declared.table.Table.TheVariants as tables;
ghost use Rattle.mos_values.specs.Views.{mos_obj_events, objects_events};
ghost use Rattle.mos_cursor.specs.Accepted.{AllFit, IsAccepted, RecordsFit};
ghost use Rattle.mos_cursor.specs.Parts.{parts_events, places, record_events};
ghost use Rattle.mos_cursor.specs.Slots.{parts_of, record_of};
ghost use Rattle.mos_cursor.specs.Inner.{Holds, inner_events};

use crate::objects::object_of;
use mos_cursor::{Cursor, Nested, Slot, record_slots};
use mos_fields::NoMemory;
use mos_tables::Table;
use mos_values::{MosObjs, Sequence};
use std::alloc::Global;

/// The objects of these records, in order. The only error is that memory runs out.
#[tactic(auto, using(mos_cursor::proofs::Read::read_start, mos_cursor::proofs::Read::read_next, mos_cursor::proofs::Read::read_more, mos_cursor::proofs::Read::read_end))]
fn read_objects(alloc: Global, inner: Sequence<Nested>) -> Result<MosObjs, NoMemory>
    requires { AllByRecursion (Holds tables.MosObj) inner }
    ensures { IfOk result (λ objects. map mos_obj_events objects ≡ map inner_events inner) }
{
    let mut rest = inner.into_vec();
    rest.reverse();
    let mut objects = MosObjs::new(alloc);
    'next: while let Some(record) = rest.pop() {
        objects.push(object_of(alloc, record.inner)?)?;
    }
    Ok(objects)
}

/// The objects of these records of a list, in order.
fn objects_in(alloc: Global, inner: Sequence<Nested>) -> Result<MosObjs, NoMemory>
    requires { RecordsFit tables.MosListAll tables.MosObj [] (map record_of inner) }
    ensures { IfOk result (λ os. objects_events os ≡ flat_map (record_events (name_of fields.MosObjTag)) (map record_of inner)) }
{
    let objects = read_objects(alloc, inner)?;
    Ok(objects)
}

/// The objects of this part.
fn objects_with(alloc: Global, objects: Slot) -> Result<MosObjs, NoMemory>
    requires { AllFit tables.MosListAll (places (columns tables.MosListAll)) (parts_of (objects ∷ [])) }
    ensures { IfOk result (λ os. objects_events os ≡ parts_events (places (columns tables.MosListAll)) (parts_of (objects ∷ []))) }
{
    match objects {
        Slot::Records(inner) => objects_in(alloc, inner),
        _ => unreachable!(),
    }
}

/// The objects of these events, in order. The only error is that memory runs out.
pub fn objects_of(alloc: Global, cursor: Cursor) -> Result<MosObjs, NoMemory>
    requires { (taken : List Text) × IsAccepted tables.MosListAll taken cursor }
    ensures { IfOk result (λ os. objects_events os ≡ cursor) }
{
    let slots: [Slot; 1] = record_slots::<1>(alloc, Table::MosListAll, cursor)?;
    let [objects] = slots;
    objects_with(alloc, objects)
}
