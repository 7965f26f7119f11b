//! The value of a record, as a flat list of events that own their texts.
//!
//! An event is what a writer of the canonical encoding writes at once: a field with its text, a raw element, the start
//! or the end of a record. `mos_tables` says what the events of a record are; the types here are those events in
//! memory. Moving events copies no text.
#![tactic(auto)]

mod element_name;
mod event;
mod events;
mod known_attribute;
mod message_name;

pub use element_name::ElementName;
pub use event::Event;
pub use events::Events;
pub use known_attribute::KnownAttribute;
pub use message_name::MessageName;
