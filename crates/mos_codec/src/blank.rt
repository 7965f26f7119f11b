//! Code units that say nothing.
ghost use Rattle.std.specs.Prelude.{◌≡◌};
ghost use Rattle.mos_codec.specs.Decoding.{are_blank as are_blank_of, is_blank as is_blank_of};

fn is_blank(unit: u16) -> bool
    ensures { result ≡ is_blank_of unit }
{
    unit == 32 || unit == 9 || unit == 10 || unit == 13 || unit == 0xFEFF
}

/// Whether all of them are white space or U+FEFF.
#[tactic(auto, unfolding(crate::specs::Decoding::are_blank))]
pub fn are_blank(units: &[u16]) -> bool
    ensures { result ≡ are_blank_of units.now }
{
    let mut rest = units;
    while let [unit, more @ ..] = rest {
        if !is_blank(*unit) {
            return false;
        }
        rest = more;
    }
    true
}
