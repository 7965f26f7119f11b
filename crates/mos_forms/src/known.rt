//! The attributes that the tables name, by their values.
ghost use Rattle.std.specs.Prelude.{◌≡◌};
ghost use Rattle.mos_fields.specs.Fields.{same};
ghost use Rattle.mos_forms.specs.Known.{known_in, value_text, values_for as values_of_lem};

use crate::chars::is_word;
use mos_columns::is_name;
use mos_events::KnownAttribute;
use mos_fields::{Field, Level, Operation};

static DEVICE_TYPES: [KnownAttribute; 2] = [KnownAttribute::Ncs, KnownAttribute::Mos];

static NUMBERS: [KnownAttribute; 10] = [
    KnownAttribute::Number(0),
    KnownAttribute::Number(1),
    KnownAttribute::Number(2),
    KnownAttribute::Number(3),
    KnownAttribute::Number(4),
    KnownAttribute::Number(5),
    KnownAttribute::Number(6),
    KnownAttribute::Number(7),
    KnownAttribute::Number(8),
    KnownAttribute::Number(9),
];

static LEVELS: [KnownAttribute; 3] = [
    KnownAttribute::Element(Level::Ro),
    KnownAttribute::Element(Level::Story),
    KnownAttribute::Element(Level::Item),
];

static OPERATIONS: [KnownAttribute; 5] = [
    KnownAttribute::Operation(Operation::Insert),
    KnownAttribute::Operation(Operation::Replace),
    KnownAttribute::Operation(Operation::Move),
    KnownAttribute::Operation(Operation::Delete),
    KnownAttribute::Operation(Operation::Swap),
];

/// What an attribute of this name may be.
#[tactic(auto, unfolding(crate::specs::Known::values_for))]
pub(crate) fn values_for(field: Field) -> &'static [KnownAttribute]
    ensures { result.now ≡ values_of_lem field }
{
    match field {
        Field::DeviceType => &DEVICE_TYPES,
        Field::Number => &NUMBERS,
        Field::ElementKind => &LEVELS,
        Field::OperationKind => &OPERATIONS,
        _ => &[],
    }
}

fn is_digit(chars: &[char], digit: u8) -> bool
    ensures { result ≡ same chars.now (value_text (KnownAttribute.Number digit)) }
{
    match chars {
        [] => false,
        [c, more @ ..] => u32::from(*c) == 48 + u32::from(digit) && more.is_empty(),
    }
}

fn has_value(attribute: KnownAttribute, chars: &[char]) -> bool
    ensures { result ≡ same chars.now (value_text attribute) }
{
    match attribute {
        KnownAttribute::Ncs => is_word(chars, b"NCS"),
        KnownAttribute::Mos => is_word(chars, b"MOS"),
        KnownAttribute::Number(digit) => is_digit(chars, digit),
        KnownAttribute::Element(level) => is_word(chars, level.word().as_bytes()),
        KnownAttribute::Operation(operation) => is_word(chars, operation.word().as_bytes()),
    }
}

/// The attribute with this value.
pub(crate) fn find_known(values: &[KnownAttribute], chars: &[char]) -> Option<KnownAttribute>
    ensures { result ≡ known_in values.now chars.now }
{
    match values {
        [] => None,
        [value, more @ ..] => {
            if has_value(*value, chars) {
                Some(*value)
            } else {
                find_known(more, chars)
            }
        }
    }
}

/// Whether code units are this digit.
fn is_plain_digit(units: &[u16], digit: u8) -> bool
    ensures { result ≡ same units.now (value_text (KnownAttribute.Number digit)) }
{
    match units {
        [] => false,
        [u, more @ ..] => *u == 48 + u16::from(digit) && more.is_empty(),
    }
}

/// Whether code units are those of a word of ASCII.
#[tactic(auto, using(crate::proofs::NameLemmas::same_back))]
fn is_plain_word(word: &str, units: &[u16]) -> bool
    ensures { result ≡ same units.now word.now }
{
    is_name(word, units)
}

/// Whether code units are those of the attribute's value.
fn has_plain_value(attribute: KnownAttribute, units: &[u16]) -> bool
    ensures { result ≡ same units.now (value_text attribute) }
{
    match attribute {
        KnownAttribute::Ncs => is_plain_word("NCS", units),
        KnownAttribute::Mos => is_plain_word("MOS", units),
        KnownAttribute::Number(digit) => is_plain_digit(units, digit),
        KnownAttribute::Element(level) => is_plain_word(level.word(), units),
        KnownAttribute::Operation(operation) => is_plain_word(operation.word(), units),
    }
}

/// The attribute with this value in code units, which have no white space round them.
pub(crate) fn find_plain(values: &[KnownAttribute], units: &[u16]) -> Option<KnownAttribute>
    ensures { result ≡ known_in values.now units.now }
{
    match values {
        [] => None,
        [value, more @ ..] => {
            if has_plain_value(*value, units) {
                Some(*value)
            } else {
                find_plain(more, units)
            }
        }
    }
}
