//! Numbers, times, words and lists of raw elements of slots.
ghost use Rattle.std.specs.Prelude.{◌≡◌, [], Some, IfOk, true};
ghost use Rattle.std.specs.List.{AllByRecursion};
ghost use Rattle.mos_fields.specs.Characters.{are_allowed};
ghost use Rattle.mos_fields.specs.Forms.{reads};
ghost use Rattle.mos_fields.specs.Raw.{IsRawElement};
ghost use Rattle.mos_fields.specs.Values.{samples_text, rev_text, time_text, air_text, obj_type_text};
ghost use Rattle.mos_fields.specs.declared.field.Field.{Field as Field_};
ghost use Rattle.mos_fields.specs.declared.form.Form.TheVariants as forms;
ghost use Rattle.mos_values.specs.Parts.{must, maybe_as, raws};
ghost use Rattle.mos_cursor.specs.Parts.{part_events};
ghost use Rattle.mos_cursor.specs.Accepted.{OneLeaf, OptionalLeaf, AnyRaws};
ghost use Rattle.mos_cursor.specs.Slots.{part_of};

use crate::slot::Slot;
use mos_fields::{Air, MosTime, NoMemory, ObjType, Rev, Samples, Text, Unread};
use mos_times::plain_time;
use mos_values::{Sequence, Unreads};
use std::alloc::Global;

/// The characters of a text.
fn chars_of(alloc: Global, text: &Text) -> Result<Vec<char>, NoMemory>
    ensures value { IfOk result (λ v. v.items ≡ text.now) }
    ensures allowed { IfOk result (λ _. are_allowed text.now ≡ true) }
{
    let mut chars = Vec::with_capacity(alloc, text.units().len())?;
    text.push_to(&mut chars)?;
    Ok(chars)
}

/// The number of samples of a canonical text.
#[tactic(auto, using(crate::proofs::Typed::samples_fine, crate::proofs::Typed::some_same))]
fn samples_of(alloc: Global, text: Text) -> Result<Samples, NoMemory>
    requires { reads forms.Samples [] text ≡ Some text }
    ensures { IfOk result (λ n. samples_text n ≡ text) }
{
    let chars = chars_of(alloc, &text)?;
    match Samples::try_new(&chars) {
        Ok(samples) => Ok(samples),
        Err(_) => unreachable!(),
    }
}

/// The revision of a canonical text.
#[tactic(auto, using(crate::proofs::Typed::rev_fine, crate::proofs::Typed::rev_same))]
fn rev_of(alloc: Global, text: Text) -> Result<Rev, NoMemory>
    requires { reads forms.Rev [] text ≡ Some text }
    ensures { IfOk result (λ n. rev_text n ≡ text) }
{
    let chars = chars_of(alloc, &text)?;
    match Rev::try_new(&chars) {
        Ok(rev) => Ok(rev),
        Err(_) => unreachable!(),
    }
}

/// The time of a canonical text, in any of the forms of times.
#[tactic(auto, using(crate::proofs::Typed::time_fine, crate::proofs::Typed::time_trimmed))]
fn time_of_any_form(alloc: Global, text: &Text) -> Result<MosTime, NoMemory>
    requires { reads forms.Time [] text.now ≡ Some text.now }
    ensures { IfOk result (λ t. time_text t ≡ text.now) }
{
    let chars = chars_of(alloc, text)?;
    match MosTime::try_new(&chars) {
        Ok(time) => Ok(time),
        Err(_) => unreachable!(),
    }
}

/// The time of a canonical text. A plain one needs no memory.
fn time_of(alloc: Global, text: Text) -> Result<MosTime, NoMemory>
    requires { reads forms.Time [] text ≡ Some text }
    ensures { IfOk result (λ t. time_text t ≡ text) }
{
    match plain_time(&text) {
        Some(time) => Ok(time),
        None => time_of_any_form(alloc, &text),
    }
}

/// The word of a canonical text.
#[tactic(auto, using(crate::proofs::Typed::air_fine, crate::proofs::Typed::air_trimmed))]
fn air_of(alloc: Global, text: Text) -> Result<Air, NoMemory>
    requires { reads forms.Air [] text ≡ Some text }
    ensures { IfOk result (λ a. air_text a ≡ text) }
{
    let chars = chars_of(alloc, &text)?;
    match Air::try_new(&chars) {
        Ok(air) => Ok(air),
        Err(_) => unreachable!(),
    }
}

/// The type of an object of a canonical text.
#[tactic(auto, using(crate::proofs::Typed::obj_type_fine, crate::proofs::Typed::obj_type_trimmed))]
fn obj_type_of(alloc: Global, text: Text) -> Result<ObjType, NoMemory>
    requires { reads forms.ObjType [] text ≡ Some text }
    ensures { IfOk result (λ t. obj_type_text t ≡ text) }
{
    let chars = chars_of(alloc, &text)?;
    match ObjType::try_new(&chars) {
        Ok(obj_type) => Ok(obj_type),
        Err(_) => unreachable!(),
    }
}

/// These texts as raw elements.
#[tactic(auto, using(crate::proofs::Typed::raws_start, crate::proofs::Typed::raw_next, crate::proofs::Typed::raws_more, crate::proofs::Typed::raws_end))]
fn unreads_of(alloc: Global, texts: Sequence<Text>) -> Result<Unreads, NoMemory>
    requires { AllByRecursion IsRawElement texts }
    ensures { IfOk result (λ xs. xs ≡ texts) }
{
    let mut rest = texts.into_vec();
    rest.reverse();
    let mut unreads = Unreads::new(alloc);
    'next: while let Some(text) = rest.pop() {
        unreads.push(Unread::from_raw(text))?;
    }
    Ok(unreads)
}

#[tactic(auto, unfolding(mos_values::specs::Parts::must, mos_values::specs::Parts::maybe_as, mos_values::specs::Parts::raws))]
impl Slot {
    /// The number of samples of a field that has to be there. The only error is that memory runs out.
    pub fn samples(self, alloc: Global) -> Result<Samples, NoMemory>
        requires { OneLeaf forms.Samples (part_of self) }
        ensures { IfOk result (λ n. (f : Field_) → part_events f (part_of self) ≡ must f (samples_text n)) }
    {
        match self {
            Slot::Leaf(leaf) => samples_of(alloc, leaf.text),
            _ => unreachable!(),
        }
    }

    /// The number of samples of a field that may be absent. The only error is that memory runs out.
    pub fn optional_samples(self, alloc: Global) -> Result<Option<Samples>, NoMemory>
        requires { OptionalLeaf forms.Samples (part_of self) }
        ensures { IfOk result (λ n. (f : Field_) → part_events f (part_of self) ≡ maybe_as samples_text f n) }
    {
        match self {
            Slot::Leaf(leaf) => Ok(Some(samples_of(alloc, leaf.text)?)),
            Slot::Absent => Ok(None),
            _ => unreachable!(),
        }
    }

    /// The time of a field that has to be there. The only error is that memory runs out.
    pub fn time(self, alloc: Global) -> Result<MosTime, NoMemory>
        requires { OneLeaf forms.Time (part_of self) }
        ensures { IfOk result (λ t. (f : Field_) → part_events f (part_of self) ≡ must f (time_text t)) }
    {
        match self {
            Slot::Leaf(leaf) => time_of(alloc, leaf.text),
            _ => unreachable!(),
        }
    }

    /// Whether something is ready to go on air, of a field that has to be there.
    /// The only error is that memory runs out.
    pub fn air(self, alloc: Global) -> Result<Air, NoMemory>
        requires { OneLeaf forms.Air (part_of self) }
        ensures { IfOk result (λ a. (f : Field_) → part_events f (part_of self) ≡ must f (air_text a)) }
    {
        match self {
            Slot::Leaf(leaf) => air_of(alloc, leaf.text),
            _ => unreachable!(),
        }
    }

    /// The time of a field that may be absent. The only error is that memory runs out.
    pub fn optional_time(self, alloc: Global) -> Result<Option<MosTime>, NoMemory>
        requires { OptionalLeaf forms.Time (part_of self) }
        ensures { IfOk result (λ t. (f : Field_) → part_events f (part_of self) ≡ maybe_as time_text f t) }
    {
        match self {
            Slot::Leaf(leaf) => Ok(Some(time_of(alloc, leaf.text)?)),
            Slot::Absent => Ok(None),
            _ => unreachable!(),
        }
    }

    /// Whether something is ready to go on air, of a field that may be absent. The only error is that memory runs out.
    pub fn optional_air(self, alloc: Global) -> Result<Option<Air>, NoMemory>
        requires { OptionalLeaf forms.Air (part_of self) }
        ensures { IfOk result (λ a. (f : Field_) → part_events f (part_of self) ≡ maybe_as air_text f a) }
    {
        match self {
            Slot::Leaf(leaf) => Ok(Some(air_of(alloc, leaf.text)?)),
            Slot::Absent => Ok(None),
            _ => unreachable!(),
        }
    }

    /// The type of an object, of a field that may be absent. The only error is that memory runs out.
    pub fn optional_obj_type(self, alloc: Global) -> Result<Option<ObjType>, NoMemory>
        requires { OptionalLeaf forms.ObjType (part_of self) }
        ensures { IfOk result (λ t. (f : Field_) → part_events f (part_of self) ≡ maybe_as obj_type_text f t) }
    {
        match self {
            Slot::Leaf(leaf) => Ok(Some(obj_type_of(alloc, leaf.text)?)),
            Slot::Absent => Ok(None),
            _ => unreachable!(),
        }
    }

    /// The revision of a field that may be absent. The only error is that memory runs out.
    pub fn optional_rev(self, alloc: Global) -> Result<Option<Rev>, NoMemory>
        requires { OptionalLeaf forms.Rev (part_of self) }
        ensures { IfOk result (λ n. (f : Field_) → part_events f (part_of self) ≡ maybe_as rev_text f n) }
    {
        match self {
            Slot::Leaf(leaf) => Ok(Some(rev_of(alloc, leaf.text)?)),
            Slot::Absent => Ok(None),
            _ => unreachable!(),
        }
    }

    /// The raw elements of a field. The only error is that memory runs out.
    pub fn raws(self, alloc: Global) -> Result<Unreads, NoMemory>
        requires { AnyRaws (part_of self) }
        ensures { IfOk result (λ xs. (f : Field_) → part_events f (part_of self) ≡ raws f xs) }
    {
        match self {
            Slot::Raws(texts) => unreads_of(alloc, texts),
            _ => unreachable!(),
        }
    }
}
