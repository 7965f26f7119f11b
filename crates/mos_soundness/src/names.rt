//! The names of raw elements.
ghost use Rattle.std.specs.Prelude.{◌≡◌, ◌↔◌, ◌≤◌, IsTrue, length, drop};
ghost use Rattle.mos_fields.specs.Characters.{Text as TextOf};
ghost use Rattle.mos_fields.specs.Elements.{name_count as count_of};
ghost use Rattle.mos_fields.specs.Fields.{name_of, same};
ghost use Rattle.mos_fields.specs.Names.{is_further as further};
ghost use Rattle.mos_fields.specs.Raw.{IsRaw};

use mos_columns::is_name;
use mos_fields::{Field, Unread};

/// Whether a name may go on with the code unit: `a` to `z`, `A` to `Z`, `_`, `0` to `9`, `:`, `-` or `.`.
fn is_further(unit: u16) -> bool
    ensures { result ≡ further unit }
{
    matches!(unit, 0x61..=0x7A | 0x41..=0x5A | 0x5F | 0x30..=0x3A | 0x2D | 0x2E)
}

/// How many characters of a name there are in front.
fn name_count(units: &[u16]) -> usize
    ensures value { result ≡ count_of units.now }
    ensures within { result ≤ length units.now }
{
    for (place, &unit) in units.iter().enumerate() {
        if !is_further(unit) {
            return place;
        }
    }
    units.len()
}

/// What stands behind the first code unit.
fn behind_first(units: &[u16]) -> &[u16]
    requires { 1 ≤ length units.now }
    ensures { result.now ≡ drop 1 units.now }
{
    &units[1..]
}

/// The name of a raw element, as code units. Each is a character, since a name has ASCII characters alone.
pub fn element_name(raw: &Unread) -> &[u16]
    ensures named { IsRaw result.now raw.now }
    ensures only { (name : TextOf) → IsRaw name raw.now → name ≡ result.now }
{
    let inside = behind_first(raw.units());
    &inside[..name_count(inside)]
}

/// Whether code units are those of this name.
#[tactic(auto, using(crate::proofs::RawNames::same_turned))]
pub fn is_word(units: &[u16], name: &str) -> bool
    ensures { result ≡ same units.now name.now }
{
    is_name(name, units)
}

/// Whether a raw element has the name of this field.
pub fn has_name(raw: &Unread, field: Field) -> bool
    ensures { IsTrue result ↔ IsRaw (name_of field) raw.now }
{
    is_word(element_name(raw), field.name())
}
