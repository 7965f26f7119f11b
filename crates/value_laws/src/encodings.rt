//! Laws of envelopes and their encodings, as code units.
ghost use Rattle.value_laws.specs.Laws.{EncodingsPinEnvelopes, WrittenIsReadBack};

use crate::envelopes::events_pin_envelopes;
use mos_lexer::laws::{encodings_are_apart, encodings_are_read};

/// An encoding of an envelope encodes no other envelope, and begins no encoding of one.
pub fn encodings_pin_envelopes()
    ensures { EncodingsPinEnvelopes }
{
    encodings_are_apart();
    events_pin_envelopes();
}

/// Where an encoding of an envelope is read, the envelope that is made of the events is that one, and what stood behind the
/// encoding is left.
pub fn written_is_read_back()
    ensures { WrittenIsReadBack }
{
    encodings_are_read();
    events_pin_envelopes();
}
