//! Texts by their forms.
ghost use Rattle.std.specs.Prelude.{◌≡◌, [], true, false, IfOk, IfSome, option_copied};
ghost use Rattle.mos_fields.specs.Characters.{are_allowed};
ghost use Rattle.mos_fields.specs.Forms.{only_if as only_if_of, reads, at_most as at_most_of};
ghost use Rattle.mos_forms.specs.Canonical.{is_id as is_id_of, is_kept, reads_beside};

use crate::chars::{is_word, shortest_digits, trimmed};
use crate::numbers::{is_plain_number, is_rev, is_samples, is_time};
use mos_fields::{FieldFault, Form, NoMemory, Text};
use mos_times::plain_time;
use std::alloc::{AllocError, Global};

fn only_if(holds: bool, text: Text) -> Option<Text>
    ensures { result ≡ only_if_of holds text }
{
    if holds { Some(text) } else { None }
}

fn is_at_most(most: usize, text: &Text) -> bool
    ensures { result ≡ at_most_of most text.now }
{
    text.len() <= most
}

fn is_id(text: &Text) -> bool
    ensures { result ≡ is_id_of text.now }
{
    let length = text.len();
    length >= 1 && length <= 128
}

#[tactic(auto, using(crate::proofs::FormLemmas::samples_read))]
fn samples(chars: &[char]) -> Option<&[char]>
    requires { are_allowed chars.now ≡ true }
    ensures value { option_copied result ≡ reads Form.Samples [] chars.now }
    ensures allowed { IfSome result (λ s. are_allowed s.now ≡ true) }
{
    if is_samples(chars) {
        Some(shortest_digits(trimmed(chars)))
    } else {
        None
    }
}

#[tactic(auto, using(crate::proofs::FormLemmas::rev_read))]
fn rev(chars: &[char]) -> Option<&[char]>
    requires { are_allowed chars.now ≡ true }
    ensures value { option_copied result ≡ reads Form.Rev [] chars.now }
    ensures allowed { IfSome result (λ s. are_allowed s.now ≡ true) }
{
    if is_rev(chars) {
        Some(shortest_digits(trimmed(chars)))
    } else {
        None
    }
}

#[tactic(auto, using(crate::proofs::FormLemmas::time_read))]
fn time(chars: &[char]) -> Option<&[char]>
    requires { are_allowed chars.now ≡ true }
    ensures value { option_copied result ≡ reads Form.Time [] chars.now }
    ensures allowed { IfSome result (λ s. are_allowed s.now ≡ true) }
{
    if is_time(chars) {
        Some(trimmed(chars))
    } else {
        None
    }
}

fn if_word<'a>(holds: bool, word: &'a [char]) -> Option<&'a [char]>
    requires { are_allowed word.now ≡ true }
    ensures value { option_copied result ≡ only_if_of holds word.now }
    ensures allowed { IfSome result (λ s. are_allowed s.now ≡ true) }
{
    if holds { Some(word) } else { None }
}

#[tactic(auto, unfolding(mos_fields::specs::Forms::reads))]
fn air(chars: &[char]) -> Option<&[char]>
    requires { are_allowed chars.now ≡ true }
    ensures value { option_copied result ≡ reads Form.Air [] chars.now }
    ensures allowed { IfSome result (λ s. are_allowed s.now ≡ true) }
{
    let word = trimmed(chars);
    if_word(is_word(word, b"READY") || is_word(word, b"NOT READY"), word)
}

#[tactic(auto, unfolding(mos_fields::specs::Forms::reads))]
fn obj_type(chars: &[char]) -> Option<&[char]>
    requires { are_allowed chars.now ≡ true }
    ensures value { option_copied result ≡ reads Form.ObjType [] chars.now }
    ensures allowed { IfSome result (λ s. are_allowed s.now ≡ true) }
{
    let word = trimmed(chars);
    if_word(
        is_word(word, b"STILL")
            || is_word(word, b"AUDIO")
            || is_word(word, b"VIDEO")
            || is_word(word, b"OTHER"),
        word,
    )
}

#[tactic(auto, unfolding(mos_fields::specs::Forms::reads))]
fn ack_word(chars: &[char]) -> Option<&[char]>
    requires { are_allowed chars.now ≡ true }
    ensures value { option_copied result ≡ reads Form.AckWord [] chars.now }
    ensures allowed { IfSome result (λ s. are_allowed s.now ≡ true) }
{
    let word = trimmed(chars);
    if_word(is_word(word, b"ACK") || is_word(word, b"NACK"), word)
}

#[tactic(auto, unfolding(mos_fields::specs::Forms::reads))]
fn profile(chars: &[char]) -> Option<&[char]>
    requires { are_allowed chars.now ≡ true }
    ensures value { option_copied result ≡ reads Form.Profile [] chars.now }
    ensures allowed { IfSome result (λ s. are_allowed s.now ≡ true) }
{
    let word = trimmed(chars);
    if_word(is_word(word, b"YES") || is_word(word, b"NO"), word)
}

/// What the text of a number, a time or a word is written as. For the other forms nothing is promised.
fn canonical(form: Form, chars: &[char]) -> Option<&[char]>
    requires { are_allowed chars.now ≡ true }
    ensures value { is_kept form ≡ false → option_copied result ≡ reads form [] chars.now }
    ensures allowed { IfSome result (λ s. are_allowed s.now ≡ true) }
{
    match form {
        Form::Samples => samples(chars),
        Form::Rev => rev(chars),
        Form::Time => time(chars),
        Form::Air => air(chars),
        Form::ObjType => obj_type(chars),
        Form::AckWord => ack_word(chars),
        Form::Profile => profile(chars),
        Form::Id | Form::Key | Form::OptId | Form::Slug | Form::Text => None,
    }
}

/// The text of characters that are allowed.
#[tactic(auto, using(crate::proofs::AllowedLemmas::only_memory))]
fn text_of(alloc: Global, chars: &[char]) -> Result<Text, NoMemory>
    requires { are_allowed chars.now ≡ true }
    ensures { IfOk result (λ t. t ≡ chars.now) }
{
    match Text::try_new(alloc, chars) {
        Ok(text) => Ok(text),
        Err(fault) => {
            prove!(matches!(fault, FieldFault::NoMemory));
            Err(AllocError)
        }
    }
}

/// The text of characters that are allowed; a text that has them already serves.
fn text_or_same(alloc: Global, chars: &[char], text: Text, all: &[char]) -> Result<Text, NoMemory>
    requires allowed { are_allowed chars.now ≡ true }
    requires all { all.now ≡ text }
    ensures { IfOk result (λ t. t ≡ chars.now) }
{
    if chars == all {
        Ok(text)
    } else {
        text_of(alloc, chars)
    }
}

fn text_of_option(
    alloc: Global,
    chars: Option<&[char]>,
    text: Text,
    all: &[char],
) -> Result<Option<Text>, NoMemory>
    requires allowed { IfSome chars (λ s. are_allowed s.now ≡ true) }
    requires all { all.now ≡ text }
    ensures { IfOk result (λ o. o ≡ option_copied chars.entry) }
{
    match chars {
        Some(chars) => Ok(Some(text_or_same(alloc, chars, text, all)?)),
        None => Ok(None),
    }
}

fn read_trimmed(alloc: Global, form: Form, text: Text) -> Result<Option<Text>, NoMemory>
    requires { is_kept form ≡ false }
    ensures { IfOk result (λ o. o ≡ reads form [] text) }
{
    let room = text.units().len();
    let mut chars = Vec::with_capacity(alloc, room)?;
    text.push_to(&mut chars)?;
    text_of_option(alloc, canonical(form, &chars), text, &chars)
}

/// What a number of samples is written as. Plain digits are kept as they are, and need no memory.
#[tactic(auto, using(crate::proofs::NumberLemmas::plain_samples))]
fn read_samples(alloc: Global, text: Text) -> Result<Option<Text>, NoMemory>
    ensures { IfOk result (λ o. o ≡ reads Form.Samples [] text) }
{
    if is_plain_number(text.units()) {
        Ok(Some(text))
    } else {
        read_trimmed(alloc, Form::Samples, text)
    }
}

/// What a time is written as. A plain one is kept as it is, and needs no memory.
#[tactic(auto, using(mos_times::proofs::TextLemmas::plain_kept))]
fn read_time(alloc: Global, text: Text) -> Result<Option<Text>, NoMemory>
    ensures { IfOk result (λ o. o ≡ reads Form.Time [] text) }
{
    if plain_time(&text).is_some() {
        Ok(Some(text))
    } else {
        read_trimmed(alloc, Form::Time, text)
    }
}

/// What a text of this form is written as, where it is known whether a record beside this one has it as its key, which
/// matters to keys alone: nothing where the text isn't of the form. White space round numbers, times and words and
/// leading zeros of numbers are dropped; every other text is kept as it is. The only error is that memory runs out.
#[tactic(auto, unfolding(crate::specs::Canonical::reads_beside))]
pub fn read_form(
    alloc: Global,
    form: Form,
    is_taken: bool,
    text: Text,
) -> Result<Option<Text>, NoMemory>
    ensures { IfOk result (λ o. o ≡ reads_beside form is_taken text) }
{
    match form {
        Form::Id => Ok(only_if(is_id(&text), text)),
        Form::Key => Ok(only_if(is_id(&text) && !is_taken, text)),
        Form::OptId => Ok(only_if(is_at_most(128, &text), text)),
        Form::Slug => Ok(only_if(is_at_most(1024, &text), text)),
        Form::Text => Ok(Some(text)),
        Form::Samples => read_samples(alloc, text),
        Form::Rev => read_trimmed(alloc, Form::Rev, text),
        Form::Time => read_time(alloc, text),
        Form::Air => read_trimmed(alloc, Form::Air, text),
        Form::ObjType => read_trimmed(alloc, Form::ObjType, text),
        Form::AckWord => read_trimmed(alloc, Form::AckWord, text),
        Form::Profile => read_trimmed(alloc, Form::Profile, text),
    }
}
