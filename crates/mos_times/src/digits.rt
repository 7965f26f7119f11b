//! Digits and the numbers that they write.
ghost use Rattle.std.specs.Prelude.{◌≡◌, ◌∷◌, ◌≤◌, [], true};
ghost use Rattle.mos_fields.specs.Forms.{is_digit as digit, number_in};

/// Whether the code unit is a decimal digit.
pub fn is_digit(unit: u16) -> bool
    ensures { result ≡ digit unit }
{
    matches!(unit, 48..=57)
}

/// The number that two digits write.
pub fn two(a: u16, b: u16) -> u16
    requires first { digit a ≡ true }
    requires second { digit b ≡ true }
    ensures value { result ≡ number_in (a ∷ b ∷ []) }
    ensures small { result ≤ 99 }
{
    (a - 48) * 10 + (b - 48)
}

/// The number that four digits write.
pub fn four(a: u16, b: u16, c: u16, d: u16) -> u16
    requires first { digit a ≡ true }
    requires second { digit b ≡ true }
    requires third { digit c ≡ true }
    requires fourth { digit d ≡ true }
    ensures value { result ≡ number_in (a ∷ b ∷ c ∷ d ∷ []) }
    ensures small { result ≤ 9999 }
{
    two(a, b) * 100 + two(c, d)
}
