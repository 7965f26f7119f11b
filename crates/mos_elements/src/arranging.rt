//! The value that the children of a record make.
ghost use Rattle.std.specs.Prelude.{◌≡◌, ◌<◌, ◌+◌, ◌++◌, ◌∷◌, OnOk, true, false, cond, [], length, drop};
ghost use Rattle.mos_fields.specs.Fields.{same_field as same_field_of};
ghost use Rattle.mos_fields.specs.declared.field.Field.{Field as FieldOf};
ghost use Rattle.mos_tables.specs.Tables.{columns as columns_of, is_ack};
ghost use Rattle.mos_grammar.specs.Records.{arranged, column_events, found, flat};
ghost use Rattle.mos_events.specs.EventView.{event_of, events_of};
ghost use Rattle.mos_elements.specs.Parts.{part_events, child_of, children_of, in_columns, in_order, are_apart};
ghost use Rattle.mos_elements.specs.Parts.{are_none as are_none_of, behind as behind_of};

use crate::child::{Child, Part};
use crate::field_name::same_field;
use mos_events::Event;
use mos_fields::{Field, NoMemory};
use mos_tables::{Column, Table};
use std::mem::replace;

/// Adds an event to the end, where mostly there is room for it.
#[tactic(auto, using(crate::proofs::PartLemmas::one_more))]
fn push_event(event: Event, out: &mut Vec<Event>) -> Result<(), NoMemory>
    ensures { OnOk result (events_of out.new.items ≡ events_of out.old.items ++ event_of event ∷ []) }
{
    if out.len() < out.capacity() {
        out.push_reserved(event);
        Ok(())
    } else {
        out.push(event)?;
        Ok(())
    }
}

#[tactic(auto, using(crate::proofs::PartLemmas::many_more, crate::proofs::PartLemmas::none_more))]
fn push_part(part: Part, out: &mut Vec<Event>) -> Result<(), NoMemory>
    ensures { OnOk result (events_of out.new.items ≡ events_of out.old.items ++ part_events part) }
{
    match part {
        Part::Nothing => Ok(()),
        Part::Single(event) => {
            push_event(event, out)?;
            Ok(())
        }
        Part::Several(mut events) => {
            out.append(&mut events)?;
            Ok(())
        }
    }
}

/// Takes out what a child of this field adds.
fn take_part(child: &mut Child, field: Field) -> Part
    ensures taken { part_events result ≡ cond (same_field_of field (child.old).field) (part_events (child.old).part) [] }
    ensures field { (child.new).field ≡ (child.old).field }
    ensures left { same_field_of field (child.old).field ≡ false → part_events (child.new).part ≡ part_events (child.old).part }
{
    if same_field(field, child.field) {
        replace(&mut child.part, Part::Nothing)
    } else {
        Part::Nothing
    }
}

/// Takes out what the child at this place adds, if it is of this field.
fn take_at(children: &mut [Child], place: usize, field: Field) -> Part
    requires { place < length children.old }
    ensures next { part_events result ++ found field (children_of (drop (place + 1) children.new)) ≡ found field (children_of (drop place children.old)) }
    ensures others { (g : FieldOf) → same_field_of field g ≡ false → found g (children_of children.new) ≡ found g (children_of children.old) }
{
    take_part(&mut children[place], field)
}

/// Moves what the child at this place adds, if it is of this field, to the end of the events.
fn move_found(
    children: &mut [Child],
    place: usize,
    field: Field,
    out: &mut Vec<Event>,
) -> Result<(), NoMemory>
    requires { place < length children.old }
    ensures next { OnOk result (events_of out.new.items ++ found field (children_of (drop (place + 1) children.new)) ≡ events_of out.old.items ++ found field (children_of (drop place children.old))) }
    ensures others { OnOk result ((g : FieldOf) → same_field_of field g ≡ false → found g (children_of children.new) ≡ found g (children_of children.old)) }
{
    if same_field(field, children[place].field) {
        push_part(take_at(children, place, field), out)
    } else {
        Ok(())
    }
}

/// Moves what the children of this field add to the end of the events.
fn take_found(children: &mut [Child], field: Field, out: &mut Vec<Event>) -> Result<(), NoMemory>
    ensures found { OnOk result (events_of out.new.items ≡ events_of out.old.items ++ found field (children_of children.old)) }
    ensures others { OnOk result ((g : FieldOf) → same_field_of field g ≡ false → found g (children_of children.new) ≡ found g (children_of children.old)) }
{
    for i in 0..children.len() {
        move_found(children, i, field, out)?;
    }
    Ok(())
}

/// Behind mosExternalMetadata, moves what the other elements add to the end of the events.
fn take_kept(children: &mut [Child], field: Field, out: &mut Vec<Event>) -> Result<(), NoMemory>
    ensures found { OnOk result (events_of out.new.items ≡ events_of out.old.items ++ cond (same_field_of field Field.Metadata) (found Field.Kept (children_of children.old)) []) }
    ensures others { OnOk result ((g : FieldOf) → same_field_of Field.Kept g ≡ false → found g (children_of children.new) ≡ found g (children_of children.old)) }
    ensures kept { OnOk result (same_field_of field Field.Metadata ≡ false → found Field.Kept (children_of children.new) ≡ found Field.Kept (children_of children.old)) }
{
    if same_field(field, Field::Metadata) {
        take_found(children, Field::Kept, out)
    } else {
        Ok(())
    }
}

/// Moves what the children of a column add to the end of the events.
fn take_column(children: &mut [Child], field: Field, out: &mut Vec<Event>) -> Result<(), NoMemory>
    requires { same_field_of field Field.Kept ≡ false }
    ensures found { OnOk result (events_of out.new.items ≡ events_of out.old.items ++ column_events field (children_of children.old)) }
    ensures others { OnOk result ((g : FieldOf) → same_field_of field g ≡ false → same_field_of Field.Kept g ≡ false → found g (children_of children.new) ≡ found g (children_of children.old)) }
    ensures kept { OnOk result (same_field_of field Field.Metadata ≡ false → found Field.Kept (children_of children.new) ≡ found Field.Kept (children_of children.old)) }
{
    take_found(children, field, out)?;
    take_kept(children, field, out)?;
    Ok(())
}

/// Moves what the children of the first of some columns add to the end of the events; the rest find what they found.
fn take_first(
    column: &Column,
    rest: &[Column],
    children: &mut [Child],
    out: &mut Vec<Event>,
) -> Result<(), NoMemory>
    requires { are_apart (column.now ∷ rest.now) ≡ true }
    ensures found { OnOk result (events_of out.new.items ≡ events_of out.old.items ++ column_events (column.now).field (children_of children.old)) }
    ensures others { OnOk result (in_columns rest.now (children_of children.new) ≡ in_columns rest.now (children_of children.old)) }
{
    let _ = rest;
    take_column(children, column.field, out)?;
    Ok(())
}

fn take_columns(
    columns: &[Column],
    children: &mut [Child],
    out: &mut Vec<Event>,
) -> Result<(), NoMemory>
    requires { are_apart columns.now ≡ true }
    ensures { OnOk result (events_of out.new.items ≡ events_of out.old.items ++ in_columns columns.now (children_of children.old)) }
{
    match columns {
        [] => Ok(()),
        [c, cs @ ..] => {
            take_first(c, cs, children, out)?;
            take_columns(cs, children, out)?;
            Ok(())
        }
    }
}

/// Takes out what the child at this place adds.
fn take_any_at(children: &mut [Child], place: usize) -> Part
    requires { place < length children.old }
    ensures { part_events result ++ flat (children_of (drop (place + 1) children.new)) ≡ flat (children_of (drop place children.old)) }
{
    replace(&mut children[place].part, Part::Nothing)
}

/// Moves what all children add, in order, to the end of the events.
fn take_all(children: &mut [Child], out: &mut Vec<Event>) -> Result<(), NoMemory>
    ensures { OnOk result (events_of out.new.items ≡ events_of out.old.items ++ flat (children_of children.old)) }
{
    for i in 0..children.len() {
        push_part(take_any_at(children, i), out)?;
    }
    Ok(())
}

/// What stands behind the children in front that are of this field.
fn behind(field: Field, children: &[Child]) -> &[Child]
    ensures { children_of result.now ≡ behind_of field (children_of children.now) }
{
    let mut rest = children;
    while let [child, more @ ..] = rest {
        if !same_field(field, child.field) {
            return rest;
        }
        rest = more;
    }
    rest
}

fn are_none(children: &[Child]) -> bool
    ensures { result ≡ are_none_of (children_of children.now) }
{
    match children {
        [] => true,
        [_, ..] => false,
    }
}

/// Whether the children stand in the order of these columns, and each is of one of them.
fn are_in_order(columns: &[Column], children: &[Child]) -> bool
    ensures { result ≡ in_order columns.now (children_of children.now) }
{
    match columns {
        [] => are_none(children),
        [c, cs @ ..] => are_in_order(cs, behind(c.field, children)),
    }
}

/// Moves what the children of columns add to the end of the events, by columns. Mostly they stand in that order.
fn take_by_columns(
    columns: &[Column],
    children: &mut [Child],
    out: &mut Vec<Event>,
) -> Result<(), NoMemory>
    requires { are_apart columns.now ≡ true }
    ensures { OnOk result (events_of out.new.items ≡ events_of out.old.items ++ in_columns columns.now (children_of children.old)) }
{
    if are_in_order(columns, children) {
        take_all(children, out)
    } else {
        take_columns(columns, children, out)
    }
}

/// Moves what the children of a record add to the end of the events: by the table's columns, in roAck in order.
#[tactic(auto, unfolding(mos_grammar::specs::Records::arranged), using(crate::proofs::ColumnLemmas::tables_apart))]
pub fn arrange(table: Table, children: &mut [Child], out: &mut Vec<Event>) -> Result<(), NoMemory>
    ensures { OnOk result (events_of out.new.items ≡ events_of out.old.items ++ arranged table (children_of children.old)) }
{
    if table.has_groups() {
        take_all(children, out)
    } else {
        take_by_columns(table.columns(), children, out)
    }
}
