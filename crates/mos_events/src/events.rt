//! Lists of events.
ghost use Rattle.std.specs.Prelude.{◌≡◌, List, [], ◌∷◌, ◌++◌, ◌==◌, length, OnErr, OnOk};
ghost use Rattle.mos_events.specs.EventView.{event_of, events_of};

use crate::event::Event;
use mos_fields::NoMemory;
use std::alloc::Global;
use std::marker::Model;

/// Events in order, as the value of a record.
#[derive(Drop)]
pub struct Events {
    events: Vec<Event>,
}

impl Model for Events {
    ghost use Rattle.std.specs.Prelude.{List};
    ghost use Rattle.mos_tables.specs.Events.{Event as Value_};
    ghost use Rattle.mos_events.specs.EventView.{events_of};

    ghost Value = { List Value_ };

    ghost view = { λ a. events_of a.events.items };
}

impl Events {
    /// The empty list, which takes no memory.
    pub fn new(alloc: Global) -> Self
        ensures { result ≡ [] }
    {
        Events {
            events: Vec::new(alloc),
        }
    }

    /// The list of what a `Vec` holds, which takes no memory.
    pub fn from_vec(events: Vec<Event>) -> Self
        ensures { result ≡ events_of events.items }
    {
        Events { events }
    }

    /// The `Vec` of what the list holds, which takes no memory.
    pub fn into_vec(self) -> Vec<Event>
        ensures { events_of result.items ≡ self }
    {
        self.events
    }

    /// How many there are.
    #[tactic(auto, using(crate::proofs::EventLemmas::events_length))]
    pub fn len(&self) -> usize
        ensures { result ≡ length self.now }
    {
        self.events.len()
    }

    /// Whether there is none.
    #[tactic(auto, using(crate::proofs::EventLemmas::events_length))]
    pub fn is_empty(&self) -> bool
        ensures { result ≡ (length self.now == 0) }
    {
        self.events.is_empty()
    }

    /// Adds one at the end. Without memory for it the list stays as it was, and the event is dropped.
    #[tactic(auto, using(crate::proofs::EventLemmas::events_append))]
    pub fn push(&mut self, event: Event) -> Result<(), NoMemory>
        ensures ok { OnOk result (self.new ≡ self.old ++ event_of event ∷ []) }
        ensures err { OnErr result (self.new ≡ self.old) }
    {
        self.events.push(event)?;
        Ok(())
    }

    /// Adds all of another list at the end. Without memory for them the list stays as it was, and the others are
    /// dropped.
    #[tactic(auto, using(crate::proofs::EventLemmas::events_append))]
    pub fn append(&mut self, mut more: Events) -> Result<(), NoMemory>
        ensures ok { OnOk result (self.new ≡ self.old ++ more) }
        ensures err { OnErr result (self.new ≡ self.old) }
    {
        self.events.append(&mut more.events)?;
        Ok(())
    }
}
