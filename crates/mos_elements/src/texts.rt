//! The texts of fields.
ghost use Rattle.std.specs.Prelude.{◌≡◌, ◌&&◌, [], IfOk, reverse};
ghost use Rattle.mos_fields.specs.Characters.{IsUtf16, chars_of};
ghost use Rattle.mos_fields.specs.Fields.{name_of};
ghost use Rattle.mos_fields.specs.Forms.{among, is_white as is_white_of, reads};
ghost use Rattle.mos_grammar.specs.Records.{field_events, leaf_event, raw_events};
ghost use Rattle.mos_grammar.specs.RecordMachine.{empty_text_fault as empty_text_fault_of};
ghost use Rattle.mos_elements.specs.Opened.{keys_beside};
ghost use Rattle.mos_elements.specs.Parts.{part_events};
ghost use Rattle.mos_elements.specs.Roles.{open_field_of};
ghost use Rattle.mos_elements.specs.Texts.{events_if};
ghost use Rattle.mos_forms.specs.Canonical.{taken_for};

use crate::child::Part;
use crate::empty::takes_empty;
use crate::field_name::same_field;
use crate::frame::Frame;
use crate::open_field::OpenField;
use mos_events::{ElementName, Event};
use mos_fields::{Field, Form, NoMemory, Text};
use mos_forms::{is_white, read_form};
use mos_grammar::Fault;
use std::alloc::Global;

/// Whether a record beside the one whose records around it these are has the text as its key.
fn is_key_beside(outer: &[Frame], text: &Text) -> bool
    ensures { result ≡ among text.now (keys_beside (reverse outer.now)) }
{
    match outer {
        [] => false,
        [_around @ .., last] => last.has_key(text),
    }
}

fn is_taken(form: Form, outer: &[Frame], text: &Text) -> bool
    ensures { result ≡ taken_for form text.now (keys_beside (reverse outer.now)) }
{
    match form {
        Form::Key => is_key_beside(outer, text),
        _ => false,
    }
}

fn leaf_part(leaf: OpenField, text: Option<Text>) -> Option<Part>
    ensures { events_if result ≡ leaf_event (name_of leaf.field) (open_field_of leaf) text }
{
    match text {
        Some(text) => Some(Part::Single(Event::Leaf {
            name: ElementName::Field(leaf.field),
            attribute: leaf.attribute,
            text,
        })),
        None => None,
    }
}

#[tactic(auto, using(mos_forms::proofs::FormLemmas::reads_is))]
fn read_leaf(
    alloc: Global,
    leaf: OpenField,
    outer: &[Frame],
    units: &[u16],
) -> Result<Option<Part>, NoMemory>
    requires { IsUtf16 units.now }
    ensures { IfOk result (λ p. events_if p ≡ leaf_event (name_of leaf.field) (open_field_of leaf) (reads leaf.form (keys_beside (reverse outer.now)) (chars_of units.now))) }
{
    let text = Text::from_units(alloc, units)?;
    let taken = is_taken(leaf.form, outer, &text);
    Ok(leaf_part(leaf, read_form(alloc, leaf.form, taken, text)?))
}

fn is_absent(leaf: OpenField, units: &[u16]) -> bool
    ensures { result ≡ (leaf.may_lack && is_white_of (chars_of units.now)) }
{
    leaf.may_lack && is_white(units)
}

/// What a text of the field adds to the value, in a record that stands in these, the innermost last: nothing where it
/// isn't of the field's form. The only error is that memory runs out.
#[tactic(auto, unfolding(mos_grammar::specs::Records::field_events))]
pub fn read_text(
    alloc: Global,
    leaf: OpenField,
    outer: &[Frame],
    units: &[u16],
) -> Result<Option<Part>, NoMemory>
    requires { IsUtf16 units.now }
    ensures { IfOk result (λ p. events_if p ≡ field_events (name_of leaf.field) (open_field_of leaf) (keys_beside (reverse outer.now)) (chars_of units.now)) }
{
    if is_absent(leaf, units) {
        Ok(Some(Part::Nothing))
    } else {
        read_leaf(alloc, leaf, outer, units)
    }
}

#[tactic(auto, using(crate::proofs::TextLemmas::empty_is, crate::proofs::TextLemmas::empty_is_none))]
fn empty_if(alloc: Global, form: Form) -> Option<Text>
    ensures { result ≡ reads form [] [] }
{
    if takes_empty(form) {
        Some(Text::new(alloc))
    } else {
        None
    }
}

/// What an empty text of the field adds to the value: nothing where it isn't of the field's form.
#[tactic(auto, unfolding(mos_grammar::specs::Records::field_events))]
pub fn read_empty(alloc: Global, leaf: OpenField) -> Option<Part>
    ensures { events_if result ≡ field_events (name_of leaf.field) (open_field_of leaf) [] [] }
{
    if leaf.may_lack {
        Some(Part::Nothing)
    } else {
        leaf_part(leaf, empty_if(alloc, leaf.form))
    }
}

/// What a tag directly behind a field's start tag shows that doesn't fit.
#[tactic(auto, unfolding(mos_grammar::specs::Records::field_events))]
pub fn empty_text_fault(leaf: OpenField) -> Fault
    ensures { result ≡ empty_text_fault_of (open_field_of leaf) (field_events (name_of leaf.field) (open_field_of leaf) [] []) }
{
    if leaf.may_lack || takes_empty(leaf.form) {
        Fault::Tag
    } else {
        Fault::Value(leaf.field)
    }
}

/// What a raw element adds to the value.
pub fn raw_part(field: Field, text: Text) -> Part
    ensures { part_events result ≡ raw_events field text }
{
    if same_field(field, Field::Dropped) {
        Part::Nothing
    } else {
        Part::Single(Event::Raw { field, text })
    }
}
