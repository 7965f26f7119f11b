//! White space in code units.
ghost use Rattle.std.specs.Prelude.{◌≡◌};
ghost use Rattle.mos_fields.specs.Characters.{chars_of};
ghost use Rattle.mos_fields.specs.Forms.{is_white as is_white_text};

/// Whether the characters of code units are nothing but white space: space, tab, line feed and carriage return.
#[tactic(auto, using(crate::proofs::UnitLemmas::white_chars))]
pub fn is_white(units: &[u16]) -> bool
    ensures { result ≡ is_white_text (chars_of units.now) }
{
    are_white(units)
}

fn are_white(units: &[u16]) -> bool
    ensures { result ≡ is_white_text units.now }
{
    units
        .iter()
        .all(|u| *u == 32 || *u == 9 || *u == 10 || *u == 13)
}
