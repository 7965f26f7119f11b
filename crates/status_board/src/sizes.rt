//! The code units of what a roAck says of reports.
ghost use Rattle.std.specs.Prelude.{◌≡◌, ◌+◌, ◌*◌, length, [], ◌∷◌, ◌++◌};
ghost use Rattle.mos_fields.specs.Escapes.{escaped, escaped_char};
ghost use Rattle.mos_fields.specs.Fields.{name_of};
ghost use Rattle.mos_values.specs.Parts.{maybe, must};
ghost use Rattle.mos_values.specs.Units.{capped, units_in};
ghost use Rattle.mos_values.specs.Views.{group_events};
ghost use Rattle.status_board.specs.Board.{answer_units, group_of};

use crate::elements::text_or;
use mos_fields::{Field, Text};
use mos_values::ElementStat;

// The code units of one, escaped.
fn escaped_unit(unit: u16) -> u64
    ensures { result ≡ length (escaped_char unit) }
{
    match unit {
        34 => 6,
        38 => 5,
        39 => 6,
        60 => 4,
        62 => 4,
        _ => 1,
    }
}

// The code units of a text, escaped.
fn escaped_units(units: &[u16]) -> u64
    ensures { result ≡ capped (length (escaped units.now)) }
{
    let mut count: u64 = 0;
    for unit in units {
        count = count.saturating_add(escaped_unit(*unit));
    }
    count
}

// The code units of a field with a text.
#[tactic(auto, using(mos_values::proofs::Counts::units_in_must))]
fn text_units(field: Field, text: &Text) -> u64
    ensures { result ≡ capped (units_in (must field text.now)) }
{
    let name = field.name().len() as u64;
    let tags = name.saturating_add(name).saturating_add(5);
    tags.saturating_add(escaped_units(text.units()))
}

// The code units of a field with a text that may be absent.
#[tactic(auto, using(mos_values::proofs::Encoding::units_in_nil), unfolding(mos_values::specs::Parts::maybe))]
fn optional_units(field: Field, text: &Option<Text>) -> u64
    ensures { result ≡ capped (units_in (maybe field text.now)) }
{
    match text {
        None => 0,
        Some(text) => text_units(field, text),
    }
}

/// The code units of what a roAck says of a report, 2^64 - 1 where that is smaller.
pub(crate) fn group_units(s: &ElementStat, nothing: &Text) -> u64
    requires { nothing.now ≡ [] }
    ensures { result ≡ capped (units_in (group_events (group_of (0, s.now)))) }
{
    let story = text_units(Field::StoryID, text_or(&s.story, nothing));
    let item = text_units(Field::ItemID, text_or(&s.item, nothing));
    let obj = text_units(Field::ObjID, text_or(&s.obj, nothing));
    let channel = optional_units(Field::ItemChannel, &s.channel);
    let status = text_units(Field::Status, &s.status);
    let names = story.saturating_add(item).saturating_add(obj);
    names.saturating_add(channel).saturating_add(status)
}

/// The code units of the roAck that lists no report on this order, 2^64 - 1 where that is smaller: of its own tags, of the
/// roStatus `OK` and of the roID.
pub(crate) fn empty_units(d: u32, ro: &Text) -> u64
    ensures { result ≡ capped (answer_units d ro.now []) }
{
    text_units(Field::RoID, ro).saturating_add(38)
}
