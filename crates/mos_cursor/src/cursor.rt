//! Events that are still to be read.
ghost use Rattle.std.specs.Prelude.{◌≡◌, ◌+◌, ◌-◌, ◌^◌, ◌<◌, ◌≤◌, List, [], ◌∷◌, ◌++◌, reverse, take, drop, MatchOption, IfOk, IfSome, length, true};
ghost use Rattle.std.specs.Option.{option_copied};
ghost use Rattle.mos_tables.specs.Events.{Event as Event_};
ghost use Rattle.mos_events.specs.EventView.{event_of, events_of, element_text};
ghost use Rattle.mos_fields.specs.Fields.{name_of, number_of, same, same_field};
ghost use Rattle.mos_cursor.specs.Taking.{begins_leaf, begins_raw, begins_record, begins_message, inner_of, behind_of};

use mos_events::{ElementName, Event, Events};
use mos_fields::{Field, NoMemory};
use std::alloc::Global;
use std::marker::Model;
use std::mem::replace;

/// The events of a record that are still to be read. Reading them moves their texts out.
#[derive(Drop)]
pub struct Cursor {
    /// the next one last
    rest: Vec<Event>,
}

impl Model for Cursor {
    ghost use Rattle.std.specs.Prelude.{List, reverse};
    ghost use Rattle.mos_tables.specs.Events.{Event as Value_};
    ghost use Rattle.mos_events.specs.EventView.{events_of};

    ghost Value = { List Value_ };

    ghost view = { λ a. reverse (events_of a.rest.items) };
}

/// The number of the field.
fn number(field: Field) -> u8
    ensures { result ≡ number_of field }
{
    field as u8
}

/// Whether they are one field.
pub(crate) fn is_field(field: Field, other: Field) -> bool
    ensures { result ≡ same_field field other }
{
    number(field) == number(other)
}

/// Whether the name is that of the field itself, which tells without a look at texts that they are the same.
#[tactic(auto, using(crate::proofs::FieldNames::own_name))]
fn is_own(name: ElementName, field: Field) -> bool
    ensures { result ≡ true → same (element_text name) (name_of field) ≡ true }
{
    match name {
        ElementName::Field(own) => is_field(own, field),
        ElementName::Mos | ElementName::Message(_) => false,
    }
}

/// Whether both have one text as their names.
fn have_one_text(name: ElementName, field: Field) -> bool
    ensures { result ≡ same (element_text name) (name_of field) }
{
    name.name() == field.name()
}

/// Whether the field has this name.
pub(crate) fn is_named(name: ElementName, field: Field) -> bool
    ensures { result ≡ same (element_text name) (name_of field) }
{
    is_own(name, field) || have_one_text(name, field)
}

/// Inside how many further records the events behind this one stand, where it stands inside so many; `None` if it is the
/// end of the record.
fn depth_behind(event: &Event, depth: usize) -> Option<usize>
    requires { depth < 2 ^ 63 }
    ensures inner { (es : List Event_) → MatchOption result (inner_of depth (event_of event.now ∷ es) ≡ []) (λ d. inner_of depth (event_of event.now ∷ es) ≡ event_of event.now ∷ inner_of d es) }
    ensures behind { (es : List Event_) → MatchOption result (behind_of depth (event_of event.now ∷ es) ≡ es) (λ d. behind_of depth (event_of event.now ∷ es) ≡ behind_of d es) }
    ensures next { IfSome result (λ d. d ≤ depth + 1) }
{
    match event {
        Event::Opens { .. } => Some(depth + 1),
        Event::Closes { .. } => { if depth == 0 { None } else { Some(depth - 1) } }
        Event::Leaf { .. } | Event::Raw { .. } => Some(depth),
    }
}

/// How many of the events, of which the next one is the last, are left at the end of the record that they stand in, with
/// that end; 0 if it is not there.
fn left_with_end(rest: &[Event], depth: usize) -> usize
    requires { depth + length rest.now < 2 ^ 63 }
    ensures within { result ≤ length rest.now }
    ensures inner { inner_of depth (reverse (events_of rest.now)) ≡ reverse (events_of (drop result rest.now)) }
    ensures behind { behind_of depth (reverse (events_of rest.now)) ≡ reverse (events_of (take (result - 1) rest.now)) }
{
    let mut left = rest.len();
    let mut inside = depth;
    'event: while left > 0 {
        match depth_behind(&rest[left - 1], inside) {
            Some(next) => inside = next,
            None => return left,
        }
        left -= 1;
    }
    0
}

impl Cursor {
    /// All of these events, which takes no memory.
    pub fn new(events: Events) -> Self
        ensures { result ≡ events }
    {
        let mut rest = events.into_vec();
        rest.reverse();
        Cursor { rest }
    }

    /// Takes the next event out.
    pub fn pop(&mut self) -> Option<Event>
        ensures { MatchOption result ((self.old ≡ []) × (self.new ≡ [])) (λ e. self.old ≡ event_of e ∷ self.new) }
    {
        self.rest.pop()
    }

    /// Whether the next event is a text of this field.
    pub fn is_leaf(&self, field: Field) -> bool
        ensures { result ≡ begins_leaf (name_of field) self.now }
    {
        match self.rest.last() {
            Some(Event::Leaf { name, .. }) => is_named(*name, field),
            _ => false,
        }
    }

    /// Whether the next event is a raw element of this field.
    pub(crate) fn is_raw(&self, field: Field) -> bool
        ensures { result ≡ begins_raw field self.now }
    {
        match self.rest.last() {
            Some(Event::Raw { field: other, .. }) => is_field(*other, field),
            _ => false,
        }
    }

    /// Whether the next event is the start of a record of this field.
    pub(crate) fn is_record(&self, field: Field) -> bool
        ensures { result ≡ begins_record (name_of field) self.now }
    {
        match self.rest.last() {
            Some(Event::Opens { name, .. }) => is_named(*name, field),
            _ => false,
        }
    }

    /// Whether the next event is a raw element or the start of a record.
    pub(crate) fn is_message(&self) -> bool
        ensures { result ≡ begins_message self.now }
    {
        matches!(
            self.rest.last(),
            Some(Event::Raw { .. } | Event::Opens { .. })
        )
    }

    /// How many events there are.
    pub fn len(&self) -> usize
        ensures { result ≡ length self.now }
    {
        self.rest.len()
    }

    /// Takes the events up to the end of the record that they stand in, and that end.
    pub(crate) fn take_inner(&mut self, alloc: Global) -> Result<Cursor, NoMemory>
        ensures { IfOk result (λ c. (c ≡ inner_of 0 self.old) × (self.new ≡ behind_of 0 self.old)) }
    {
        let left = left_with_end(&self.rest, 0);
        if left < 2 {
            let mut inner = replace(&mut self.rest, Vec::new(alloc));
            if left == 1 {
                let _end = inner.remove(0);
            }
            return Ok(Cursor { rest: inner });
        }
        let inner = self.rest.split_off(left)?;
        let _end = self.rest.pop();
        Ok(Cursor { rest: inner })
    }
}
