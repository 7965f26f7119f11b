//! Which character stands at a place.
ghost use Rattle.std.specs.Prelude.{◌≡◌, ◌<◌, ◌+◌, length, slice_index, false, true};
ghost use Rattle.mos_fields.specs.Characters.{is_high as is_high_of, is_low as is_low_of};
ghost use Rattle.mos_scanner.specs.Character.{IsAtPlace};

use crate::number::is_allowed;

/// What stands at a place of the code units that are held.
#[derive(Clone, Copy)]
pub enum Character {
    /// a character that XML 1.0 allows, and where it ends
    Whole(char, usize),
    /// the first unit of a pair of which the second isn't held yet
    Cut,
    /// a unit of a pair without its other unit
    Unpaired,
    /// a character that XML 1.0 doesn't allow
    Forbidden,
}

/// The first unit of a pair.
#[inline(always)]
fn is_high(unit: u16) -> bool
    ensures { result ≡ is_high_of unit }
{
    unit >= 0xD800 && unit <= 0xDBFF
}

/// The second unit of a pair.
#[inline(always)]
fn is_low(unit: u16) -> bool
    ensures { result ≡ is_low_of unit }
{
    unit >= 0xDC00 && unit <= 0xDFFF
}

/// A unit that is an allowed character by itself: U+0020 to U+D7FF. Most are.
#[inline(always)]
fn is_lone(unit: u16) -> bool
    ensures { result ≡ true → (is_high_of unit ≡ false) × (is_low_of unit ≡ false) }
{
    unit >= 0x20 && unit <= 0xD7FF
}

/// What stands at a place.
#[inline(always)]
pub fn character_at(held: &[u16], here: usize) -> Character
    requires { here < length held.now }
    ensures { IsAtPlace result held.now here }
{
    if is_lone(held[here]) {
        single_at(held, here)
    } else {
        other_at(held, here)
    }
}

/// What a unit is that is no unit of a pair.
#[inline(always)]
fn single_at(held: &[u16], here: usize) -> Character
    requires within { here < length held.now }
    requires not_high { is_high_of (slice_index held.now here) ≡ false }
    requires not_low { is_low_of (slice_index held.now here) ≡ false }
    ensures { IsAtPlace result held.now here }
{
    match char::from_u32(u32::from(held[here])) {
        None => Character::Forbidden,
        Some(c) => {
            if is_allowed(c) {
                Character::Whole(c, here + 1)
            } else {
                Character::Forbidden
            }
        }
    }
}

/// What stands at a place, whatever its unit is.
fn other_at(held: &[u16], here: usize) -> Character
    requires { here < length held.now }
    ensures { IsAtPlace result held.now here }
{
    let unit = held[here];
    if is_low(unit) {
        Character::Unpaired
    } else if is_high(unit) {
        if here + 1 == held.len() {
            Character::Cut
        } else {
            pair_at(held, here)
        }
    } else {
        single_at(held, here)
    }
}

/// What a high unit with another unit behind it is.
fn pair_at(held: &[u16], here: usize) -> Character
    requires within { here + 1 < length held.now }
    requires high { is_high_of (slice_index held.now here) ≡ true }
    ensures { IsAtPlace result held.now here }
{
    let low = held[here + 1];
    if is_low(low) {
        match char::from_u32(
            0x10000 + (u32::from(held[here]) - 0xD800) * 0x400 + (u32::from(low) - 0xDC00),
        ) {
            None => Character::Forbidden,
            Some(c) => Character::Whole(c, here + 2),
        }
    } else {
        Character::Unpaired
    }
}
