//! References, character after character.
ghost use Rattle.std.specs.Prelude.{◌≡◌, ◌++◌, ◌∷◌, [], ℕ, List, cond};
ghost use Rattle.mos_scanner.specs.declared.reference.Referred.TheVariants.{Begun, Found, Never};
ghost use Rattle.mos_scanner.specs.References.{IsAt, IsBounded, IsReferred};

use crate::number;

/// What of a reference was read behind its `&`.
#[derive(Clone, Copy)]
pub enum Reference {
    /// nothing
    Empty,
    /// `l`
    L,
    /// `lt`
    Lt,
    /// `g`
    G,
    /// `gt`
    Gt,
    /// `a`
    A,
    /// `am`
    Am,
    /// `amp`
    Amp,
    /// `ap`
    Ap,
    /// `apo`
    Apo,
    /// `apos`
    Apos,
    /// `q`
    Q,
    /// `qu`
    Qu,
    /// `quo`
    Quo,
    /// `quot`
    Quot,
    /// `#` and so many decimal digits, which write this number
    Decimal(u32, u32),
    /// `#x` and so many hexadecimal digits, which write this number
    Hexadecimal(u32, u32),
}

/// What a reference is with one more character.
#[derive(Clone, Copy)]
pub enum Referred {
    /// it is whole, and stands for this character
    Found(char),
    /// it is the beginning of a reference
    Begun(Reference),
    /// no reference begins so
    Never,
}

/// The beginning goes on so, or no reference does.
#[inline(always)]
fn begun(goes_on: bool, next: Reference) -> Referred
    ensures { result ≡ cond goes_on (Begun next) Never }
{
    if goes_on {
        Referred::Begun(next)
    } else {
        Referred::Never
    }
}

/// The reference is whole and stands for this character, or no reference goes on so.
#[inline(always)]
fn found(is_whole: bool, c: char) -> Referred
    ensures { result ≡ cond is_whole (Found c) Never }
{
    if is_whole {
        Referred::Found(c)
    } else {
        Referred::Never
    }
}

/// The first character behind `&`.
fn first(c: char) -> Referred
    ensures { IsReferred result (c ∷ []) }
{
    if c == 'l' {
        Referred::Begun(Reference::L)
    } else if c == 'g' {
        Referred::Begun(Reference::G)
    } else if c == 'a' {
        Referred::Begun(Reference::A)
    } else if c == 'q' {
        Referred::Begun(Reference::Q)
    } else if c == '#' {
        Referred::Begun(Reference::Decimal(0, 0))
    } else {
        Referred::Never
    }
}

/// The character behind `&a`.
fn behind_a(c: char) -> Referred
    ensures { IsReferred result (97 ∷ c ∷ []) }
{
    if c == 'm' {
        Referred::Begun(Reference::Am)
    } else if c == 'p' {
        Referred::Begun(Reference::Ap)
    } else {
        Referred::Never
    }
}

impl Reference {
    /// What the reference is with one more character.
    pub fn next(self, c: char) -> Referred
        requires { IsBounded self }
        ensures { (m : List ℕ) → IsAt self m → IsReferred result (m ++ c ∷ []) }
    {
        match self {
            Reference::Empty => first(c),
            Reference::L => begun(c == 't', Reference::Lt),
            Reference::Lt => found(c == ';', '<'),
            Reference::G => begun(c == 't', Reference::Gt),
            Reference::Gt => found(c == ';', '>'),
            Reference::A => behind_a(c),
            Reference::Am => begun(c == 'p', Reference::Amp),
            Reference::Amp => found(c == ';', '&'),
            Reference::Ap => begun(c == 'o', Reference::Apo),
            Reference::Apo => begun(c == 's', Reference::Apos),
            Reference::Apos => found(c == ';', '\''),
            Reference::Q => begun(c == 'u', Reference::Qu),
            Reference::Qu => begun(c == 'o', Reference::Quo),
            Reference::Quo => begun(c == 't', Reference::Quot),
            Reference::Quot => found(c == ';', '"'),
            Reference::Decimal(count, value) => number::decimal(count, value, c),
            Reference::Hexadecimal(count, value) => number::hexadecimal(count, value, c),
        }
    }
}
