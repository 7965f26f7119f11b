//! Messages of other names, which are kept as they were written.
ghost use Rattle.std.specs.Prelude.{◌≡◌, ◌≤◌, ◌∷◌, [], ◌++◌, IfOk, length, true};
ghost use Rattle.mos_fields.specs.Characters.{are_allowed};
ghost use Rattle.mos_fields.specs.Elements.{name_count as count_of};
ghost use Rattle.mos_fields.specs.Names.{is_further as further, is_name};
ghost use Rattle.mos_fields.specs.Raw.{IsRaw, IsRawElement};
ghost use Rattle.mos_fields.specs.declared.fault.FieldFault.TheVariants.{NoMemory as out_of_memory};
ghost use Rattle.mos_fields.specs.declared.field.Field.TheVariants as fields;
ghost use Rattle.mos_values.specs.MessageViews.{message_events};
ghost use Rattle.mos_values.specs.Parts.{must_raw};
ghost use Rattle.mos_message_reading.specs.Values.{IsNamed};

use mos_fields::{FieldFault, Name, NoMemory, Text, Unread};
use mos_values::Message;
use std::alloc::Global;

/// Whether a name may go on with the character.
fn is_further(c: char) -> bool
    ensures { result ≡ further c }
{
    matches!(c, 'a'..='z' | 'A'..='Z' | '_' | '0'..=':' | '-' | '.')
}

/// How many characters of a name there are in front.
fn name_count(chars: &[char]) -> usize
    ensures value { result ≡ count_of chars.now }
    ensures within { result ≤ length chars.now }
{
    for (place, &c) in chars.iter().enumerate() {
        if !is_further(c) {
            return place;
        }
    }
    chars.len()
}

/// The characters of a text.
fn chars_of(alloc: Global, text: &Text) -> Result<Vec<char>, NoMemory>
    ensures value { IfOk result (λ v. v.items ≡ text.now) }
    ensures allowed { IfOk result (λ _. are_allowed text.now ≡ true) }
{
    let _units = text.units();
    let mut chars = Vec::new(alloc);
    text.push_to(&mut chars)?;
    Ok(chars)
}

/// The fault of a call that can lack memory alone.
fn memory_fault(fault: FieldFault) -> NoMemory
    requires { fault ≡ out_of_memory }
{
    let _ = fault;
    NoMemory
}

/// The name of these characters. The only error is that memory runs out.
fn name_of(alloc: Global, chars: &[char]) -> Result<Name, NoMemory>
    requires allowed { are_allowed chars.now ≡ true }
    requires named { is_name chars.now ≡ true }
    ensures { IfOk result (λ n. n ≡ chars.now) }
{
    match Text::try_new(alloc, chars) {
        Ok(text) => Ok(Name::from_name(text)),
        Err(fault) => Err(memory_fault(fault)),
    }
}

/// The name that stands in front of these characters, which follow the `<` of an element.
/// The only error is that memory runs out.
fn front_name(alloc: Global, chars: &[char]) -> Result<Name, NoMemory>
    requires element { IsRawElement (60 ∷ chars.now) }
    requires allowed { are_allowed chars.now ≡ true }
    ensures { IfOk result (λ n. IsRaw n (60 ∷ chars.now)) }
{
    let count = name_count(chars);
    name_of(alloc, &chars[..count])
}

/// The name of an element of these characters. The only error is that memory runs out.
fn name_at(alloc: Global, chars: &[char]) -> Result<Name, NoMemory>
    requires element { IsRawElement chars.now }
    requires allowed { are_allowed chars.now ≡ true }
    ensures { IfOk result (λ n. IsRaw n chars.now) }
{
    match chars {
        [_, rest @ ..] => front_name(alloc, rest),
        [] => unreachable!(),
    }
}

/// The name of a raw element. The only error is that memory runs out.
pub(crate) fn name_in(alloc: Global, text: &Text) -> Result<Name, NoMemory>
    requires { IsRawElement text.now }
    ensures { IfOk result (λ n. IsRaw n text.now) }
{
    let chars = chars_of(alloc, text)?;
    name_at(alloc, &chars)
}

/// The message of a raw element, which is kept with its name. The only error is that memory runs out.
#[tactic(auto, unfolding(mos_values::specs::MessageViews::message_events))]
pub(crate) fn other_of(alloc: Global, text: Text) -> Result<Message, NoMemory>
    requires { IsRawElement text }
    ensures events { IfOk result (λ m. message_events m ≡ must_raw fields.Message text) }
    ensures named { IfOk result (λ m. IsNamed m) }
{
    let name = name_in(alloc, &text)?;
    Ok(Message::Other {
        name,
        raw: Unread::from_raw(text),
    })
}
