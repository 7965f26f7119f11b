//! The attributes of start tags.
ghost use Rattle.std.specs.Prelude.{◌≡◌, ◌∷◌, [], List, ℕ, IfOk, OnOk, MatchOption, true};
ghost use Rattle.mos_fields.specs.Characters.{are_allowed, units_of};
ghost use Rattle.mos_fields.specs.Fields.{name_of, same};
ghost use Rattle.mos_fields.specs.Forms.{trimmed as inner};
ghost use Rattle.mos_tables.specs.Tables.{operation_of as operation_of_lem};
ghost use Rattle.mos_grammar.specs.Records.{operation_in, values_of};
ghost use Rattle.mos_forms.specs.Known.{IsGiven, given_as, known_in, values_for as values_of_lem};

use crate::chars::{is_word, trimmed};
use crate::given::Given;
use crate::known::{find_known, find_plain, values_for};
use mos_columns::is_name;
use mos_events::KnownAttribute;
use mos_fields::{Field, NoMemory, Operation, Text};
use mos_grammar::Fault;
use mos_tokens::Attribute;
use std::alloc::Global;

/// Whether an attribute has the name of this field.
#[tactic(auto, using(crate::proofs::NameLemmas::same_as_units))]
fn has_name(attribute: &Attribute, field: Field) -> bool
    ensures { result ≡ same (attribute.now).name (name_of field) }
{
    is_name(field.name(), attribute.name().units())
}

/// The value of the first attribute with this name, and the attributes behind it.
fn first_named<'a>(field: Field, attributes: &'a [Attribute]) -> Option<(&'a Text, &'a [Attribute])>
    ensures { MatchOption result (values_of (name_of field) attributes.now ≡ []) (λ p. values_of (name_of field) attributes.now ≡ inner p.0.now ∷ values_of (name_of field) p.1.now) }
{
    let mut rest = attributes;
    while let [attribute, more @ ..] = rest {
        if has_name(attribute, field) {
            return Some((attribute.value(), more));
        }
        rest = more;
    }
    None
}

fn operation_of(word: &[char]) -> Operation
    ensures { result ≡ operation_of_lem word.now }
{
    if is_word(word, b"REPLACE") {
        Operation::Replace
    } else if is_word(word, b"MOVE") {
        Operation::Move
    } else if is_word(word, b"DELETE") {
        Operation::Delete
    } else if is_word(word, b"SWAP") {
        Operation::Swap
    } else {
        Operation::Insert
    }
}

fn operation_in_chars(alloc: Global, value: &Text) -> Result<Operation, NoMemory>
    ensures { IfOk result (λ o. o ≡ operation_of_lem (inner value.now)) }
{
    let mut chars = Vec::with_capacity(alloc, value.units().len())?;
    value.push_to(&mut chars)?;
    Ok(operation_of(trimmed(&chars)))
}

/// The operation that a text names. With no white space round it, that needs no memory.
#[tactic(auto, using(crate::proofs::PlainLemmas::plain_operation))]
fn operation_in_text(alloc: Global, value: &Text) -> Result<Operation, NoMemory>
    ensures { IfOk result (λ o. o ≡ operation_of_lem (inner value.now)) }
{
    match find_plain(values_for(Field::OperationKind), value.units()) {
        Some(KnownAttribute::Operation(operation)) => Ok(operation),
        _ => operation_in_chars(alloc, value),
    }
}

/// The operation that the attributes of a roElementAction's start tag name; `Insert` where they name none. The only error
/// is that memory runs out.
pub fn read_operation(alloc: Global, attributes: &[Attribute]) -> Result<Operation, NoMemory>
    ensures { IfOk result (λ o. o ≡ operation_in (values_of (name_of Field.OperationKind) attributes.now)) }
{
    match first_named(Field::OperationKind, attributes) {
        None => Ok(Operation::Insert),
        Some((value, _)) => operation_in_text(alloc, value),
    }
}

fn known_in_chars(
    alloc: Global,
    field: Field,
    value: &Text,
) -> Result<Option<KnownAttribute>, NoMemory>
    ensures { IfOk result (λ o. o ≡ known_in (values_of_lem field) (inner value.now)) }
{
    let mut chars = Vec::with_capacity(alloc, value.units().len())?;
    value.push_to(&mut chars)?;
    Ok(find_known(values_for(field), trimmed(&chars)))
}

/// The attribute that a text is. With no white space round it, that needs no memory.
#[tactic(auto, using(crate::proofs::PlainLemmas::plain_known))]
fn known_in_text(
    alloc: Global,
    field: Field,
    value: &Text,
) -> Result<Option<KnownAttribute>, NoMemory>
    ensures { IfOk result (λ o. o ≡ known_in (values_of_lem field) (inner value.now)) }
{
    match find_plain(values_for(field), value.units()) {
        Some(attribute) => Ok(Some(attribute)),
        None => known_in_chars(alloc, field, value),
    }
}

fn given_once(field: Field, known: Option<KnownAttribute>) -> Given
    ensures { result ≡ given_as field known }
{
    match known {
        Some(attribute) => Given::Known(Some(attribute)),
        None => Given::Faulty(Fault::Value(field)),
    }
}

#[tactic(auto, using(crate::proofs::KnownLemmas::once_given))]
fn read_wanted(alloc: Global, field: Field, attributes: &[Attribute]) -> Result<Given, NoMemory>
    ensures { IfOk result (IsGiven (Some field) attributes.now) }
{
    match first_named(field, attributes) {
        None => Ok(Given::Faulty(Fault::Missing(field))),
        Some((value, behind)) => match first_named(field, behind) {
            Some(_) => Ok(Given::Faulty(Fault::Twice(field))),
            None => Ok(given_once(field, known_in_text(alloc, field, value)?)),
        },
    }
}

/// What a start tag gives of the attribute that its table names, if it names one: its value without white space round it,
/// or `Missing`, `Twice` or `Value` where it lacks, is there twice or has another value than its table allows. The only
/// error is that memory runs out.
pub fn read_attribute(
    alloc: Global,
    wanted: Option<Field>,
    attributes: &[Attribute],
) -> Result<Given, NoMemory>
    ensures { IfOk result (IsGiven wanted attributes.now) }
{
    match wanted {
        None => Ok(Given::Known(None)),
        Some(field) => read_wanted(alloc, field, attributes),
    }
}
