//! Plain times.
ghost use Rattle.std.specs.Prelude.{◌≡◌, ◌≤◌, true, false, length, codes, IfSome, IfNone, is_some};
ghost use Rattle.mos_fields.specs.Forms.{fits};
ghost use Rattle.mos_fields.specs.Limits.{is_day as day_exists, is_time_of_day as time_exists};
ghost use Rattle.mos_fields.specs.Values.{time_text};
ghost use Rattle.mos_times.specs.Plain.{IsPlainRead, is_plain};

use crate::form::{has_form, two_at, year_of};
use mos_fields::{MosTime, Text, Zone, is_day, is_time_of_day};

/// The time that code units of the form write.
fn time_of_form(units: &[u16]) -> Option<MosTime>
    requires form { fits (codes "0000-00-00T00:00:00Z") units.now ≡ true }
    requires long { length units.now ≡ 20 }
    ensures found { IfSome result (IsPlainRead units.now) }
    ensures lost { IfNone result (is_plain units.now ≡ false) }
{
    let year = year_of(units);
    let month = two_at(units, 5);
    let day = two_at(units, 8);
    let hour = two_at(units, 11);
    let minute = two_at(units, 14);
    let second = two_at(units, 17);
    if !is_day(year, month, day) {
        return None;
    }
    if !is_time_of_day(hour, minute, second) {
        return None;
    }
    Some(MosTime {
        year,
        month: month as u8,
        day: day as u8,
        hour: hour as u8,
        minute: minute as u8,
        second: second as u8,
        millis: None,
        zone: Zone::Z,
    })
}

/// The time that code units write.
#[tactic(auto, using(crate::proofs::PlainLemmas::long, crate::proofs::PlainLemmas::no_pattern))]
fn time_of_units(units: &[u16]) -> Option<MosTime>
    ensures found { IfSome result (IsPlainRead units.now) }
    ensures lost { IfNone result (is_plain units.now ≡ false) }
{
    if has_form(units) {
        time_of_form(units)
    } else {
        None
    }
}

/// The time that a text is, where it is one in the form `YYYY-MM-DDThh:mm:ssZ`; nothing exactly where it is none in that
/// form, or no such day or time of day exists.
pub fn plain_time(text: &Text) -> Option<MosTime>
    ensures found { IfSome result (λ t. time_text t ≡ text.now) }
    ensures plain { is_some result ≡ is_plain text.now }
{
    time_of_units(text.units())
}
