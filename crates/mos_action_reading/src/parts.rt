//! The parts of actions on running orders, from their events.
ghost use Rattle.std.specs.Prelude.{◌≡◌, ◌++◌, List, [], ◌∷◌, IfOk};
ghost use Rattle.mos_fields.specs.Characters.{Text};
ghost use Rattle.mos_fields.specs.Fields.{name_of};
ghost use Rattle.mos_fields.specs.declared.field.Field.TheVariants as fields;
ghost use Rattle.mos_tables.specs.Tables.{columns};
ghost use Rattle.mos_tables.specs.declared.table.Table.TheVariants as tables;
ghost use Rattle.mos_values.specs.Parts.{element, must};
ghost use Rattle.mos_cursor.specs.Accepted.{AllFit, IsAccepted};
ghost use Rattle.mos_cursor.specs.Parts.{parts_events, places};
ghost use Rattle.mos_cursor.specs.Slots.{part_of, parts_of};
ghost use Rattle.mos_action_reading.specs.Aims.{IsAimed};
ghost use Rattle.mos_action_reading.specs.Parts.{IsOptionalRecord, IsPlainRecord, IsSourceOf, IsTargetOf, maybe_record, plain_record, target_events};

use mos_cursor::{Cursor, Slot, record_slots};
use mos_fields::{Id, NoMemory, Operation};
use mos_tables::Table;
use std::alloc::Global;

/// The order of an action, and the events inside its element_target and its element_source.
pub(crate) struct ActionParts {
    pub(crate) ro: Id,
    pub(crate) target: Option<Cursor>,
    pub(crate) source: Cursor,
}

/// The events inside a record that has to be there.
fn record_inside(slot: Slot) -> Cursor
    requires { IsPlainRecord (part_of slot) }
    ensures { part_of slot ≡ plain_record result }
{
    match slot {
        Slot::Record(record) => record.inner,
        _ => unreachable!(),
    }
}

/// The events inside a record that may be absent.
fn optional_inside(slot: Slot) -> Option<Cursor>
    requires { IsOptionalRecord (part_of slot) }
    ensures { part_of slot ≡ maybe_record result }
{
    match slot {
        Slot::Record(record) => Some(record.inner),
        Slot::Absent => None,
        _ => unreachable!(),
    }
}

/// The slots of an action: its source holds what the operation and the target ask for.
fn action_slots(alloc: Global, operation: Operation, cursor: Cursor) -> Result<[Slot; 3], NoMemory>
    requires { (taken : List Text) × IsAccepted (tables.Action operation) taken cursor }
    ensures fit { IfOk result (λ s. AllFit (tables.Action operation) (places (columns (tables.Action operation))) (parts_of s)) }
    ensures aimed { IfOk result (λ s. IsAimed operation (parts_of s)) }
    ensures events { IfOk result (λ s. cursor ≡ parts_events (places (columns (tables.Action operation))) (parts_of s)) }
{
    let slots: [Slot; 3] = record_slots::<3>(alloc, Table::Action(operation), cursor)?;
    Ok(slots)
}

/// The parts of an action of this operation, from these slots.
fn parts_with(operation: Operation, ro: Slot, target: Slot, source: Slot) -> ActionParts
    requires fit { AllFit (tables.Action operation) (places (columns (tables.Action operation))) (parts_of (ro ∷ target ∷ source ∷ [])) }
    requires aimed { IsAimed operation (parts_of (ro ∷ target ∷ source ∷ [])) }
    ensures target { IsTargetOf operation result.target }
    ensures source { IsSourceOf operation result.target result.source }
    ensures events { must fields.RoID result.ro ++ (target_events result.target ++ element (name_of fields.ElementSource) result.source) ≡ parts_events (places (columns (tables.Action operation))) (parts_of (ro ∷ target ∷ source ∷ [])) }
{
    let _ = operation;
    let target = optional_inside(target);
    let source = record_inside(source);
    ActionParts {
        ro: ro.id(),
        target,
        source,
    }
}

/// The parts of an action of this operation, from its events. The only error is that memory runs out.
pub(crate) fn action_parts(
    alloc: Global,
    operation: Operation,
    cursor: Cursor,
) -> Result<ActionParts, NoMemory>
    requires { (taken : List Text) × IsAccepted (tables.Action operation) taken cursor }
    ensures target { IfOk result (λ p. IsTargetOf operation p.target) }
    ensures source { IfOk result (λ p. IsSourceOf operation p.target p.source) }
    ensures events { IfOk result (λ p. must fields.RoID p.ro ++ (target_events p.target ++ element (name_of fields.ElementSource) p.source) ≡ cursor) }
{
    let slots = action_slots(alloc, operation, cursor)?;
    let [ro, target, source] = slots;
    Ok(parts_with(operation, ro, target, source))
}
