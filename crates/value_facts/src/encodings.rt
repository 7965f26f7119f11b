//! Envelopes in memory are encoded: the canonical encoding of each that is sound is an encoding of it, without further
//! premises on its texts and IDs.
ghost use Rattle.std.specs.Prelude.{◌≤◌, length};
ghost use Rattle.mos_fields.specs.Characters.{units_of};
ghost use Rattle.mos_lexer.specs.Encodings.{Encodes};
ghost use Rattle.mos_lexer.specs.Units.{message_limit};
ghost use Rattle.mos_tables.specs.Canonical.{canonical};
ghost use Rattle.mos_values.specs.MessageViews.{envelope_events};
ghost use Rattle.mos_values.specs.Sound.{IsSound};

use crate::envelopes::envelope_fits;
use encoding_laws::laws::{allowed_texts_are_encoded, values_are_encoded, values_are_messages};
use mos_values::Envelope;

/// The canonical encoding of an envelope is an encoding of it: a reader that gets it comes to the envelope's events.
///
/// The message has to be sound, and the encoding may have 8,388,608 code units at most, as every message.
pub fn is_encoded(e: &Envelope)
    requires sound { IsSound e.now.message }
    requires short { length (units_of (canonical (envelope_events e.now))) ≤ message_limit }
    ensures { Encodes (envelope_events e.now) (units_of (canonical (envelope_events e.now))) }
{
    envelope_fits(e);
    values_are_messages();
    allowed_texts_are_encoded();
    values_are_encoded();
}
