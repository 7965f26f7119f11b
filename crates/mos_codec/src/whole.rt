//! The messages that are whole, as envelopes.
ghost use Rattle.std.specs.Prelude.{◌≡◌, ◌+◌, ◌<◌, ◌^◌, ◌++◌, ℕ, List, [], ◌∷◌, None, IfNone, IfOk, IfSome, OnErr, OnOk, length};
ghost use Rattle.std.specs.List.{AllByRecursion};
ghost use Rattle.mos_decoder.specs.Bytes.{HasHanded, IsReadValue, behind_odd, found_of};
ghost use Rattle.mos_fields.specs.Characters.{units_in};
ghost use Rattle.mos_lexer.specs.Units.{Found as FoundOf};
ghost use Rattle.mos_reader.specs.Answers.{fed};
ghost use Rattle.mos_values.specs.declared.message.Envelope.{Envelope as Enveloped};
ghost use Rattle.mos_codec.specs.Codec.{EncodesEnvelope};
ghost use Rattle.mos_codec.specs.Decoding.{IsReady, placed_events, with_ready};
ghost use Rattle.mos_codec.specs.Taking.{IsMore, TakesFirst, Took};

use mos_decoder::EventDecoder;
use mos_fields::{NoMemory, let_go};
use mos_lexer::laws::encodings_are_read;
use mos_message_reading::{envelope_of, read_message};
use mos_reader::{Found, ReadFault};
use mos_values::Envelope;
use std::alloc::Global;
use std::collections::VecDeque;
use value_laws::envelopes::events_pin_envelopes;
use value_laws::laws::read_messages_are_sound;
use value_laws::ranges::message_is_in_range;

/// A message that is whole.
#[derive(Drop)]
pub struct Placed {
    /// where its `<mos` begins: so many code units of the stream stand before it
    pub began: usize,
    /// the message with its envelope
    pub envelope: Envelope,
}

/// The envelope of events that were read.
fn place(alloc: Global, found: Found) -> Result<Placed, NoMemory>
    requires { IsReadValue found.value }
    ensures events { IfOk result (λ p. placed_events p ≡ found_of found) }
    ensures ready { IfOk result (λ p. IsReady p) }
{
    read_message();
    read_messages_are_sound();
    let envelope = envelope_of(alloc, found.value)?;
    message_is_in_range(&envelope.message);
    Ok(Placed {
        began: found.began,
        envelope,
    })
}

/// Puts a message behind those that are whole.
fn push_message(alloc: Global, found: Found, ready: &mut VecDeque<Placed>) -> Result<(), NoMemory>
    requires { IsReadValue found.value }
    ensures more { OnOk result (IsMore (found_of found) ready.old.items ready.new.items) }
    ensures same { OnErr result (ready.new.items ≡ ready.old.items) }
{
    let placed = place(alloc, found)?;
    match ready.push_back(placed) {
        Ok(()) => Ok(()),
        Err(full) => {
            let_go(full);
            Err(NoMemory)
        }
    }
}

/// Takes the first message.
pub fn take_first(ready: &mut VecDeque<Placed>) -> Option<Placed>
    ensures none { IfNone result ((ready.new ≡ ready.old) × (ready.old.items ≡ [])) }
    ensures some { IfSome result (λ p. ready.old.items ≡ p ∷ ready.new.items) }
{
    if ready.is_empty() {
        return None;
    }
    ready.pop_front()
}

/// Puts all messages that are whole behind those that are ready.
fn take_whole(
    alloc: Global,
    events: &mut EventDecoder,
    ready: &mut VecDeque<Placed>,
) -> Result<(), ReadFault>
    ensures took { (bytes : List ℕ) (found : List FoundOf) → HasHanded events.old bytes (with_ready found ready.old.items) → Took bytes found result events.new ready.new.items }
    ensures ready { AllByRecursion IsReady ready.old.items → AllByRecursion IsReady ready.new.items }
    ensures first { (e : Enveloped) (us rest : List ℕ) → EncodesEnvelope us e → (events.old).stream.fault ≡ None → (events.old).stream.held ≡ us ++ rest → ready.old.items ≡ [] → TakesFirst e result ready.new.items }
{
    encodings_are_read();
    events_pin_envelopes();
    'message: loop {
        match events.next() {
            Ok(Some(found)) => match push_message(alloc, found, ready) {
                Ok(()) => {}
                Err(_) => return Err(ReadFault::NoMemory),
            },
            Ok(None) => return Ok(()),
            Err(fault) => return Err(fault),
        }
    }
}

/// Feeds more bytes, and puts all messages that are whole with them behind those that are ready.
pub fn take_piece(
    alloc: Global,
    events: &mut EventDecoder,
    piece: &[u8],
    ready: &mut VecDeque<Placed>,
) -> Result<(), ReadFault>
    requires room { fed (events.old).stream + length piece.now < 2 ^ 64 }
    ensures took { (before : List ℕ) (found : List FoundOf) → HasHanded events.old before (with_ready found ready.old.items) → Took (before ++ piece.now) found result events.new ready.new.items }
    ensures ready { AllByRecursion IsReady ready.old.items → AllByRecursion IsReady ready.new.items }
    ensures first { (e : Enveloped) (us rest : List ℕ) → EncodesEnvelope us e → (events.old).stream.fault ≡ None → (events.old).stream.held ++ units_in (behind_odd (events.old).odd piece.now) ≡ us ++ rest → ready.old.items ≡ [] → TakesFirst e result ready.new.items }
{
    match events.feed(piece) {
        Ok(()) => take_whole(alloc, events, ready),
        Err(_) => Err(ReadFault::NoMemory),
    }
}
