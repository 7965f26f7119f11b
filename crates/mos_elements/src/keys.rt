//! The keys of records beside each other.
ghost use Rattle.std.specs.Prelude.{◌≡◌, ◌∷◌, [], MatchOption};
ghost use Rattle.mos_grammar.specs.Records.{key_of as key_of_lem};
ghost use Rattle.mos_events.specs.EventView.{events_of};
ghost use Rattle.mos_elements.specs.Parts.{part_events};

use crate::child::Part;
use mos_events::Event;
use mos_fields::Text;

/// The key of a record with these events: the text of its first field.
fn key_of_events(events: &[Event]) -> Option<&Text>
    ensures { MatchOption result (key_of_lem (events_of events.now) ≡ []) (λ k. key_of_lem (events_of events.now) ≡ k.now ∷ []) }
{
    match events {
        [] => None,
        [first, more @ ..] => match first {
            Event::Opens { .. } => match more {
                [] => None,
                [second, ..] => match second {
                    Event::Leaf { text, .. } => Some(text),
                    _ => None,
                },
            },
            _ => None,
        },
    }
}

/// The key that a child has, if it is a record.
pub fn key_of(part: &Part) -> Option<&Text>
    ensures { MatchOption result (key_of_lem (part_events part.now) ≡ []) (λ k. key_of_lem (part_events part.now) ≡ k.now ∷ []) }
{
    match part {
        Part::Nothing => None,
        Part::Single(_) => None,
        Part::Several(events) => key_of_events(events),
    }
}
