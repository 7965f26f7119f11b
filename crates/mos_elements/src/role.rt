//! How elements are read.
ghost use Rattle.std.specs.Prelude.{◌≡◌, ◌&&◌, IfOk, List, true, ℕ};
ghost use Rattle.mos_fields.specs.Forms.{is_trimmed as is_trimmed_of};
ghost use Rattle.mos_grammar.specs.Records.{column_of, is_full as is_full_of, is_named, is_optional as is_optional_of, message_of, message_role as message_role_of, other_role, role as role_of_lem, role_at as role_at_of, role_by as role_by_of, with_aim as with_aim_of};
ghost use Rattle.mos_tables.specs.Events.{Attribute as AttributeOf};
ghost use Rattle.mos_tables.specs.Tables.{columns as columns_of};
ghost use Rattle.mos_columns.specs.Counts.{counts_of};
ghost use Rattle.mos_elements.specs.Opened.{seen_in, times_by};
ghost use Rattle.mos_elements.specs.Roles.{IsRole};

use crate::frame::Frame;
use crate::others::others;
use mos_columns::{find_named, message_table};
use mos_events::ElementName;
use mos_fields::{Field, Form, NoMemory};
use mos_forms::read_operation;
use mos_tables::{Column, Often, Others, Shape, Table};
use mos_tokens::Attribute;
use std::alloc::Global;

/// How an element is read, its faults aside.
#[derive(Clone, Copy)]
pub enum Role {
    /// not at all
    OutOfPlace,
    /// as this field, with a text of this form, and whether nothing but white space means that it is absent
    Leaf(Field, Form, bool),
    /// as this raw element
    Raw(Field),
    /// as this record with this name
    Record(Field, Table, ElementName),
}

fn is_optional(often: Often) -> bool
    ensures { result ≡ is_optional_of often }
{
    matches!(often, Often::Optional)
}

fn is_trimmed(form: Form) -> bool
    ensures { result ≡ is_trimmed_of form }
{
    matches!(
        form,
        Form::Samples | Form::Rev | Form::Time | Form::Air | Form::ObjType
    )
}

pub fn may_lack(often: Often, form: Form) -> bool
    ensures { result ≡ (is_optional_of often && is_trimmed_of form) }
{
    is_optional(often) && is_trimmed(form)
}

/// Whether the record has as many elements of this name as its column takes. They are looked up only where there is such a
/// number.
fn has_all(frame: &Frame, often: Often, name: &[u16]) -> bool
    ensures { result ≡ is_full_of often (times_by (columns_of (frame.now).table) (counts_of (columns_of (frame.now).table) (seen_in frame.now)) name.now) }
{
    match often {
        Often::Count(most) => usize::from(most) <= frame.times(name),
        _ => false,
    }
}

/// element_source holds what the operation and the target ask for.
fn with_aim(frame: &Frame, table: Table) -> Table
    ensures { result ≡ with_aim_of (frame.now).before table }
{
    match table {
        Table::Source(operation, _) => Table::Source(operation, frame.aim()),
        _ => table,
    }
}

fn message_role(
    alloc: Global,
    field: Field,
    name: &[u16],
    attributes: &[Attribute],
) -> Result<Role, NoMemory>
    ensures { IfOk result (λ r. IsRole r name.now attributes.now (message_role_of field attributes.now (message_of name.now attributes.now))) }
{
    match find_named(name) {
        None => Ok(Role::Raw(field)),
        Some(message) => {
            let operation = read_operation(alloc, attributes)?;
            let table = message_table(message, operation);
            Ok(Role::Record(field, table, ElementName::Message(message)))
        }
    }
}

fn role_at(
    alloc: Global,
    frame: &Frame,
    column: Column,
    name: &[u16],
    attributes: &[Attribute],
) -> Result<Role, NoMemory>
    requires { is_named column name.now ≡ true }
    ensures { IfOk result (λ r. IsRole r name.now attributes.now (role_at_of (frame.now).before name.now attributes.now column column.shape)) }
{
    match column.shape {
        Shape::Leaf(form) => Ok(Role::Leaf(column.field, form, may_lack(column.often, form))),
        Shape::Raw => Ok(Role::Raw(column.field)),
        Shape::Record(table) => Ok(Role::Record(
            column.field,
            with_aim(frame, table),
            ElementName::Field(column.field),
        )),
        Shape::Message => message_role(alloc, column.field, name, attributes),
    }
}

fn role_of_other(others: Others) -> Role
    ensures { (n : List ℕ) → (g : List AttributeOf) → IsRole result n g (other_role others) }
{
    match others {
        Others::Kept => Role::Raw(Field::Kept),
        Others::Dropped => Role::Raw(Field::Dropped),
        Others::Refused => Role::OutOfPlace,
    }
}

/// How an element of this column is read, or an element that the table does not name. The only error is that memory runs
/// out.
pub fn find_role(
    alloc: Global,
    frame: &Frame,
    column: Option<Column>,
    name: &[u16],
    attributes: &[Attribute],
) -> Result<Role, NoMemory>
    requires { column ≡ column_of (columns_of (frame.now).table) name.now }
    ensures { IfOk result (λ r. IsRole r name.now attributes.now (role_of_lem (frame.now).table (frame.now).before name.now attributes.now)) }
{
    match column {
        None => Ok(role_of_other(others(frame.table(), name))),
        Some(column) => {
            if has_all(frame, column.often, name) {
                Ok(Role::OutOfPlace)
            } else {
                role_at(alloc, frame, column, name, attributes)
            }
        }
    }
}
