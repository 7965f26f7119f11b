//! Laws of the reading and writing of text.
ghost use Rattle.std.specs.Prelude.{◌≡◌, ◌++◌, None, length};
ghost use Rattle.mos_fields.specs.Characters.{bytes_of, units_in, units_of};
ghost use Rattle.mos_text.specs.Reading.{after, gained, start};
ghost use Rattle.mos_text.specs.Faults.{chars_before_fault, first_fault};

use crate::reading::Reading;
use mos_fields::Text;

/// Bytes that are fed in two pieces are read as those that are fed at once.
#[tactic(auto, using(crate::proofs::LawLemmas::after_pieces, crate::proofs::LawLemmas::gained_pieces))]
pub fn pieces_are_one(reading: Reading, first: &[u8], second: &[u8])
    ensures reading { after reading (first.now ++ second.now) ≡ after (after reading first.now) second.now }
    ensures chars { gained reading (first.now ++ second.now) ≡ gained reading first.now ++ gained (after reading first.now) second.now }
{
    let _ = reading;
    let _ = first;
    let _ = second;
}

/// The bytes of a text are read as its characters, with no fault and nothing left to come.
#[tactic(auto, using(crate::proofs::LawLemmas::after_text, crate::proofs::LawLemmas::gained_text))]
pub fn bytes_are_read_back(text: &Text)
    ensures chars { gained start (bytes_of (units_of text.now)) ≡ text.now }
    ensures reading { after start (bytes_of (units_of text.now)) ≡ record { place = length (units_of text.now); odd = None; high = None; fault = None } }
{
    let _ = text.units();
}

/// A reading has the first fault of the whole code units that were fed, and has given the characters before it.
#[tactic(auto, using(crate::proofs::LawLemmas::fault_of_units, crate::proofs::LawLemmas::chars_of_units))]
pub fn faults_are_the_first(bytes: &[u8])
    ensures fault { (after start bytes.now).fault ≡ first_fault 0 (units_in bytes.now) }
    ensures chars { gained start bytes.now ≡ chars_before_fault (units_in bytes.now) }
{
    let _ = bytes;
}
