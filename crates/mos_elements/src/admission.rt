//! How elements begin.
ghost use Rattle.std.specs.Prelude.{◌≡◌, [], false, IfOk, IfSome, List, Some, None, ℕ};
ghost use Rattle.mos_tables.specs.Events.{Attribute as AttributeOf};
ghost use Rattle.mos_tables.specs.declared.table.Table.{Table as TableOf};
ghost use Rattle.mos_tables.specs.Tables.{attribute_of_form as attribute_of_form_lem, columns as columns_of};
ghost use Rattle.mos_grammar.specs.Records.{admission, admitted as admitted_of, column_of, earlier as earlier_of, empty_admission, given_of, inside_fault as inside_fault_of, is_full as is_full_of, order_of as order_of_lem, outside_fault as outside_fault_of, role_fault};
ghost use Rattle.mos_grammar.specs.Records.{Child as ChildOf};
ghost use Rattle.mos_events.specs.EventView.{attributes_of};
ghost use Rattle.mos_forms.specs.Known.{IsGiven};
ghost use Rattle.mos_elements.specs.Roles.{BeginsAs, HasName, IsAdmission, IsPlain, role_of, wanted_of};

use crate::empty::{leaf_fault, table_end_fault};
use crate::frame::Frame;
use crate::open_field::OpenField;
use crate::role::{Role, find_role, may_lack};
use mos_events::{ElementName, KnownAttribute};
use mos_fields::{Field, Form, NoMemory};
use mos_forms::{Given, read_attribute};
use mos_grammar::Fault;
use mos_tables::{Column, Often, Shape, Table};
use mos_tokens::Attribute;
use std::alloc::Global;

/// How an element begins.
#[derive(Clone, Copy)]
pub enum Admission {
    /// it doesn't fit
    Refused(Fault),
    /// as a field with a text
    AsLeaf(OpenField),
    /// as this raw element
    AsRaw(Field),
    /// as this record, with its name and the attribute that it has
    AsRecord(Field, Table, ElementName, Option<KnownAttribute>),
}

fn order_of(fault: Fault) -> u8
    ensures { result ≡ order_of_lem fault }
{
    match fault {
        Fault::Twice(_) => 0,
        Fault::Order(_) => 1,
        Fault::Missing(_) => 2,
        Fault::Value(_) => 3,
        Fault::Tag => 4,
    }
}

/// The fault whose kind comes first; the first of two of one kind.
fn earlier_of_two(first: Fault, second: Fault) -> Fault
    ensures { Some result ≡ earlier_of (Some first) (Some second) }
{
    if order_of(second) < order_of(first) {
        second
    } else {
        first
    }
}

fn earlier_than(before: Option<Fault>, fault: Fault) -> Fault
    ensures { Some result ≡ earlier_of before (Some fault) }
{
    match before {
        None => fault,
        Some(first) => earlier_of_two(first, fault),
    }
}

fn earlier(first: Option<Fault>, second: Option<Fault>) -> Option<Fault>
    ensures { result ≡ earlier_of first second }
{
    match second {
        None => first,
        Some(fault) => Some(earlier_than(first, fault)),
    }
}

fn earlier_or(fault: Fault, behind: Option<Fault>) -> Fault
    ensures { Some result ≡ earlier_of (Some fault) behind }
{
    match behind {
        None => fault,
        Some(second) => earlier_of_two(fault, second),
    }
}

/// The column of an element with this name, and what its tag shows of the fields seen.
fn find_outside(frame: &Frame, name: &[u16]) -> (Option<Column>, Option<Fault>)
    ensures column { result.0 ≡ column_of (columns_of (frame.now).table) name.now }
    ensures fault { result.1 ≡ outside_fault_of (frame.now).table (frame.now).before name.now }
{
    match frame.find_tag(name) {
        None => (None, None),
        Some((column, fault)) => (Some(column), fault),
    }
}

fn wanted(role: Role) -> Option<Field>
    ensures { result ≡ wanted_of role }
{
    match role {
        Role::OutOfPlace | Role::Raw(_) => None,
        Role::Leaf(_, form, _) => attribute_of_form(form),
        Role::Record(_, table, _) => table.attribute(),
    }
}

fn attribute_of_form(form: Form) -> Option<Field>
    ensures { result ≡ attribute_of_form_lem form }
{
    match form {
        Form::Profile => Some(Field::Number),
        _ => None,
    }
}

/// How an element with this role begins, where it has no fault.
fn admit_role(role: Role, attribute: Option<KnownAttribute>) -> Admission
    ensures { (n : List ℕ) → (g : List AttributeOf) → HasName role n → attributes_of attribute ≡ given_of (wanted_of role) g → IsAdmission result n (admitted_of (role_of role g) None) }
{
    match role {
        Role::OutOfPlace => Admission::Refused(Fault::Tag),
        Role::Leaf(field, form, may_lack) => Admission::AsLeaf(OpenField {
            field,
            form,
            may_lack,
            attribute,
        }),
        Role::Raw(field) => Admission::AsRaw(field),
        Role::Record(field, table, name) => { Admission::AsRecord(field, table, name, attribute) }
    }
}

/// How an element begins whose tag shows this outside it, this by its attributes, and this inside it.
fn admitted(role: Role, outside: Option<Fault>, given: Given, inside: Option<Fault>) -> Admission
    ensures { (n : List ℕ) → (g : List AttributeOf) → HasName role n → IsGiven (wanted_of role) g given → IsAdmission result n (admitted_of (role_of role g) (earlier_of outside (earlier_of (role_fault (role_of role g) g) inside))) }
{
    match given {
        Given::Faulty(fault) => {
            Admission::Refused(earlier_than(outside, earlier_or(fault, inside)))
        }
        Given::Known(attribute) => match earlier(outside, inside) {
            Some(fault) => Admission::Refused(fault),
            None => admit_role(role, attribute),
        },
    }
}

/// What an empty tag shows as an end tag.
fn inside_fault(alloc: Global, role: Role) -> Result<Option<Fault>, NoMemory>
    ensures { (n : List ℕ) → (g : List AttributeOf) → IfOk result (λ k. k ≡ inside_fault_of n (role_of role g) []) }
{
    match role {
        Role::OutOfPlace | Role::Raw(_) => Ok(None),
        Role::Leaf(field, form, may_lack) => Ok(leaf_fault(field, form, may_lack)),
        Role::Record(_, table, _) => table_end_fault(alloc, table),
    }
}

/// Whether a column asks for a number of elements.
fn is_counted(often: Often) -> bool
    ensures { result ≡ false → (k : ℕ) → is_full_of often k ≡ false }
{
    matches!(often, Often::Count(_))
}

/// Whether a field of this form may have an attribute.
fn has_attribute(form: Form) -> bool
    ensures { result ≡ false → attribute_of_form_lem form ≡ None }
{
    matches!(form, Form::Profile)
}

/// How a field of a column begins where its tag shows no fault, if that needs no look at the record or the attributes.
fn plain_field(field: Field, often: Often, form: Form) -> Option<OpenField>
    ensures { IfSome result (λ o. IsPlain o field often form) }
{
    if is_counted(often) || has_attribute(form) {
        None
    } else {
        Some(OpenField {
            field,
            form,
            may_lack: may_lack(often, form),
            attribute: None,
        })
    }
}

/// How an element of a column begins where its tag shows no fault, if it is a field and that needs no look at the record or
/// the attributes.
fn plain_leaf(column: Column) -> Option<OpenField>
    ensures { IfSome result (λ o. BeginsAs o column) }
{
    match column.shape {
        Shape::Leaf(form) => plain_field(column.field, column.often, form),
        _ => None,
    }
}

/// How an element begins, if it is plain: then it is a field, and neither the record nor the attributes matter.
fn plain(column: Option<Column>, outside: Option<Fault>) -> Option<OpenField>
    ensures { IfSome result (λ o. (t : TableOf) → (before : List ChildOf) → (n : List ℕ) → (g : List AttributeOf) → column ≡ column_of (columns_of t) n → outside ≡ outside_fault_of t before n → IsAdmission (Admission.AsLeaf o) n (admission t before n g)) }
{
    match outside {
        Some(_) => None,
        None => match column {
            None => None,
            Some(column) => plain_leaf(column),
        },
    }
}

/// How the element of a start tag begins that has this column, and whose tag shows this. The only error is that memory runs
/// out.
fn admit_as(
    alloc: Global,
    frame: &Frame,
    column: Option<Column>,
    outside: Option<Fault>,
    name: &[u16],
    attributes: &[Attribute],
) -> Result<Admission, NoMemory>
    requires column { column ≡ column_of (columns_of (frame.now).table) name.now }
    requires fault { outside ≡ outside_fault_of (frame.now).table (frame.now).before name.now }
    ensures { IfOk result (λ a. IsAdmission a name.now (admission (frame.now).table (frame.now).before name.now attributes.now)) }
{
    let role = find_role(alloc, frame, column, name, attributes)?;
    let given = read_attribute(alloc, wanted(role), attributes)?;
    Ok(admitted(role, outside, given, None))
}

/// How the element of a start tag begins. The only error is that memory runs out.
pub fn admit(
    alloc: Global,
    frame: &Frame,
    name: &[u16],
    attributes: &[Attribute],
) -> Result<Admission, NoMemory>
    ensures { IfOk result (λ a. IsAdmission a name.now (admission (frame.now).table (frame.now).before name.now attributes.now)) }
{
    let (column, outside) = find_outside(frame, name);
    match plain(column, outside) {
        Some(leaf) => Ok(Admission::AsLeaf(leaf)),
        None => admit_as(alloc, frame, column, outside, name, attributes),
    }
}

/// How the element of an empty tag begins. The only error is that memory runs out.
pub fn admit_empty(
    alloc: Global,
    frame: &Frame,
    name: &[u16],
    attributes: &[Attribute],
) -> Result<Admission, NoMemory>
    ensures { IfOk result (λ a. IsAdmission a name.now (empty_admission (frame.now).table [] (frame.now).before name.now attributes.now)) }
{
    let (column, outside) = find_outside(frame, name);
    let role = find_role(alloc, frame, column, name, attributes)?;
    let given = read_attribute(alloc, wanted(role), attributes)?;
    let inside = inside_fault(alloc, role)?;
    Ok(admitted(role, outside, given, inside))
}
