//! References by number.
ghost use Rattle.std.specs.Prelude.{◌≡◌, ◌≢◌, ◌≤◌, ◌<◌, ◌-◌, ◌++◌, ◌∷◌, [], ℕ, List, codes, true};
ghost use Rattle.mos_fields.specs.Characters.{is_allowed as is_allowed_of};
ghost use Rattle.mos_fields.specs.References.{is_digit as is_digit_of, is_hex as is_hex_of, hex_value as hex_value_of, number_in, hex_from, has_allowed as has_allowed_of, may_end as may_end_of};
ghost use Rattle.mos_scanner.specs.References.{IsDigits, IsReferred, IsShort, ended_of, decimal_of, hexadecimal_of};

use crate::reference::{Reference, Referred};

/// XML 1.0 allows the character.
pub fn is_allowed(c: char) -> bool
    ensures { result ≡ is_allowed_of c }
{
    matches!(c, '\t' | '\n' | '\r' | ' '..='\u{D7FF}' | '\u{E000}'..='\u{FFFD}' | '\u{10000}'..='\u{10FFFF}')
}

/// A decimal digit.
fn is_digit(c: char) -> bool
    ensures { result ≡ is_digit_of c }
{
    c >= '0' && c <= '9'
}

/// A hexadecimal digit.
fn is_hex(c: char) -> bool
    ensures { result ≡ is_hex_of c }
{
    is_digit(c) || c >= 'a' && c <= 'f' || c >= 'A' && c <= 'F'
}

/// What a decimal digit counts.
fn digit_value(c: char) -> u32
    requires { is_digit_of c ≡ true }
    ensures value { result ≡ c - 48 }
    ensures below { result < 10 }
{
    c as u32 - 48
}

/// What a hexadecimal digit counts.
fn hex_value(c: char) -> u32
    requires { is_hex_of c ≡ true }
    ensures value { result ≡ hex_value_of c }
    ensures below { result < 16 }
{
    if is_digit(c) {
        c as u32 - 48
    } else if c >= 'a' {
        c as u32 - 87
    } else {
        c as u32 - 55
    }
}

/// Some number from the first to the last is an allowed character.
fn has_allowed(low: u32, high: u32) -> bool
    ensures { result ≡ has_allowed_of low high }
{
    low <= 10 && high >= 9
        || low <= 13 && high >= 13
        || low <= 0xD7FF && high >= 32
        || low <= 0xFFFD && high >= 0xE000
        || low <= 0x10FFFF && high >= 0x10000
}

/// Digits that write a number from `low` to `high`, with at most so many more, can write an allowed character.
fn may_end(radix: u32, low: u32, high: u32, more: u32) -> bool
    requires some { 0 < radix }
    requires small { radix ≤ 16 }
    ensures { result ≡ may_end_of radix low high more }
{
    if has_allowed(low, high) {
        true
    } else if more == 0 || low > 0x10FFFF {
        false
    } else {
        may_end(radix, low * radix, high * radix + (radix - 1), more - 1)
    }
}

/// The `;` behind so many digits that write this number.
fn ended(count: u32, value: u32) -> Referred
    ensures { result ≡ ended_of count value }
{
    match char::from_u32(value) {
        None => Referred::Never,
        Some(c) => {
            if count > 0 && is_allowed(c) {
                Referred::Found(c)
            } else {
                Referred::Never
            }
        }
    }
}

/// A further decimal digit, of which the value is this, behind so many digits.
fn decimal_digit(count: u32, value: u32) -> Referred
    requires { count ≤ 8 }
    ensures { result ≡ decimal_of count value }
{
    if count < 8 {
        if may_end(10, value, value, 7 - count) {
            Referred::Begun(Reference::Decimal(count + 1, value))
        } else {
            Referred::Never
        }
    } else {
        Referred::Never
    }
}

/// A further hexadecimal digit, of which the value is this, behind so many digits.
fn hexadecimal_digit(count: u32, value: u32) -> Referred
    requires { count ≤ 8 }
    ensures { result ≡ hexadecimal_of count value }
{
    if count < 8 {
        if may_end(16, value, value, 7 - count) {
            Referred::Begun(Reference::Hexadecimal(count + 1, value))
        } else {
            Referred::Never
        }
    } else {
        Referred::Never
    }
}

/// One more character behind `#` and so many decimal digits, which write this value.
pub fn decimal(count: u32, value: u32, c: char) -> Referred
    requires { IsShort count value }
    ensures { (ds : List ℕ) → IsDigits is_digit_of number_in ds count value → IsReferred result (codes "#" ++ (ds ++ c ∷ [])) }
{
    if c == ';' {
        ended(count, value)
    } else if is_digit(c) {
        decimal_digit(count, value * 10 + digit_value(c))
    } else if c == 'x' {
        if count == 0 {
            Referred::Begun(Reference::Hexadecimal(0, 0))
        } else {
            Referred::Never
        }
    } else {
        Referred::Never
    }
}

/// One more character behind `#x` and so many hexadecimal digits, which write this value.
pub fn hexadecimal(count: u32, value: u32, c: char) -> Referred
    requires { IsShort count value }
    ensures { (ds : List ℕ) → IsDigits is_hex_of (hex_from 0) ds count value → IsReferred result (codes "#x" ++ (ds ++ c ∷ [])) }
{
    if c == ';' {
        ended(count, value)
    } else if is_hex(c) {
        hexadecimal_digit(count, value * 16 + hex_value(c))
    } else {
        Referred::Never
    }
}
