//! Laws of whole messages.
//!
//! Both premises hold of what the code reads. A message that came from `mos_message_reading::message_of` or `envelope_of` is
//! named: the contract says so. The numbers of every message are in range, as `ranges::message_is_in_range` promises; in a
//! clause alone they have no bound, and two numbers of more than 64 digits may have the same canonical text.
ghost use Rattle.value_laws.specs.Laws.{EventsPinMessages, EventsPinEnvelopes};

/// No two messages have the same events: what is written of a message says all of it.
pub fn events_pin_messages()
    ensures { EventsPinMessages }
{}

/// No two envelopes have the same events.
pub fn events_pin_envelopes()
    ensures { EventsPinEnvelopes }
{}
