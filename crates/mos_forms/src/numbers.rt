//! Whether characters are a number or a time.
ghost use Rattle.std.specs.Prelude.{◌≡◌, [], true, is_some};
ghost use Rattle.mos_fields.specs.Characters.{are_allowed};
ghost use Rattle.mos_fields.specs.Forms.{is_digits, reads};
ghost use Rattle.mos_forms.specs.Plain.{is_plain_number as is_plain_number_of};

use mos_fields::{Form, MosTime, Rev, Samples};

fn are_digits(units: &[u16]) -> bool
    ensures { result ≡ is_digits units.now }
{
    units.iter().all(|u| 48 <= *u && *u <= 57)
}

/// Whether code units are a number that is kept as it is written: 1 to 9 digits, with no zero in front of others.
#[tactic(auto, unfolding(crate::specs::Plain::is_plain_number))]
pub(crate) fn is_plain_number(units: &[u16]) -> bool
    ensures { result ≡ is_plain_number_of units.now }
{
    match units {
        [] => false,
        [u, more @ ..] => { more.len() < 9 && (*u != 48 || more.is_empty()) && are_digits(units) }
    }
}

#[tactic(auto, using(crate::proofs::FormLemmas::samples_told))]
pub(crate) fn is_samples(chars: &[char]) -> bool
    requires { are_allowed chars.now ≡ true }
    ensures { result ≡ is_some (reads Form.Samples [] chars.now) }
{
    Samples::try_new(chars).is_ok()
}

#[tactic(auto, using(crate::proofs::FormLemmas::rev_told))]
pub(crate) fn is_rev(chars: &[char]) -> bool
    requires { are_allowed chars.now ≡ true }
    ensures { result ≡ is_some (reads Form.Rev [] chars.now) }
{
    Rev::try_new(chars).is_ok()
}

#[tactic(auto, using(crate::proofs::FormLemmas::time_told))]
pub(crate) fn is_time(chars: &[char]) -> bool
    requires { are_allowed chars.now ≡ true }
    ensures { result ≡ is_some (reads Form.Time [] chars.now) }
{
    MosTime::try_new(chars).is_ok()
}
