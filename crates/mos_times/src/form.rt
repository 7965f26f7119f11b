//! The form of a plain time, and the numbers in it.
ghost use Rattle.std.specs.Prelude.{◌≡◌, ◌≤◌, ◌+◌, ◌&&◌, true, length, codes, take, drop};
ghost use Rattle.mos_fields.specs.Forms.{fits, is_digits, number_at, is_digit as digit};

use crate::digits::{four, is_digit, two};

/// Whether both code units are decimal digits.
fn are_two(a: u16, b: u16) -> bool
    ensures { result ≡ (digit a && digit b) }
{
    is_digit(a) && is_digit(b)
}

/// Whether code units begin with a date `0000-00-00`, with any digits for its zeros. All tests are made, which is faster
/// than to leave at the first one that fails.
fn has_date(units: &[u16]) -> bool
    requires { length units.now ≡ 20 }
    ensures { result ≡ fits (codes "0000-00-00") (take 10 units.now) }
{
    are_two(units[0], units[1])
        & are_two(units[2], units[3])
        & (units[4] == 45)
        & are_two(units[5], units[6])
        & (units[7] == 45)
        & are_two(units[8], units[9])
}

/// Whether code units go on behind a date with `T00:00:00Z`, with any digits for its zeros.
fn has_clock(units: &[u16]) -> bool
    requires { length units.now ≡ 20 }
    ensures { result ≡ fits (codes "T00:00:00Z") (drop 10 units.now) }
{
    (units[10] == 84)
        & are_two(units[11], units[12])
        & (units[13] == 58)
        & are_two(units[14], units[15])
        & (units[16] == 58)
        & are_two(units[17], units[18])
        & (units[19] == 90)
}

/// Whether code units are `0000-00-00T00:00:00Z`, with any digits for its zeros.
pub fn has_form(units: &[u16]) -> bool
    ensures { result ≡ fits (codes "0000-00-00T00:00:00Z") units.now }
{
    units.len() == 20 && has_date(units) && has_clock(units)
}

/// The number that two digits write from a place on.
pub fn two_at(units: &[u16], at: usize) -> u16
    requires within { at + 2 ≤ length units.now }
    requires digits { is_digits (take 2 (drop at units.now)) ≡ true }
    ensures value { result ≡ number_at at 2 units.now }
    ensures small { result ≤ 99 }
{
    two(units[at], units[at + 1])
}

/// The number that the first four digits write.
pub fn year_of(units: &[u16]) -> u16
    requires within { 4 ≤ length units.now }
    requires digits { is_digits (take 4 (drop 0 units.now)) ≡ true }
    ensures value { result ≡ number_at 0 4 units.now }
    ensures small { result ≤ 9999 }
{
    four(units[0], units[1], units[2], units[3])
}
