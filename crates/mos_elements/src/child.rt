//! Children of records.
ghost use Rattle.std.specs.Prelude.{◌≡◌, length};
ghost use Rattle.mos_elements.specs.Parts.{part_events};

use mos_events::Event;
use mos_fields::Field;

/// What a child element adds to the value of its record.
#[derive(Drop)]
pub enum Part {
    /// nothing: it is dropped, or its text means that it is absent
    Nothing,
    /// one event: a field or a raw element
    Single(Event),
    /// the events of a record
    Several(Vec<Event>),
}

impl Part {
    /// How many events it adds.
    #[tactic(auto, using(mos_events::proofs::EventLemmas::events_length))]
    pub fn len(&self) -> usize
        ensures { result ≡ length (part_events self.now) }
    {
        match self {
            Part::Nothing => 0,
            Part::Single(_) => 1,
            Part::Several(events) => events.len(),
        }
    }
}

/// A child element of a record: the field that it is, and what it adds to the value.
#[derive(Drop)]
pub struct Child {
    pub field: Field,
    pub part: Part,
}
