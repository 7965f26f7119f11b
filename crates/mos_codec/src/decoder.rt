//! From a stream of bytes to envelopes.
ghost use Rattle.std.specs.Prelude.{◌≡◌, ◌+◌, ◌<◌, ◌^◌, ◌++◌, ℕ, List, [], Some, Err, None, IfNone, IfSome, length, true};
ghost use Rattle.input_laws.specs.Words.{are_bytes};
ghost use Rattle.mos_decoder.specs.Bytes.{behind_odd};
ghost use Rattle.mos_fields.specs.Characters.{units_in};
ghost use Rattle.mos_lexer.specs.Units.{Found as FoundOf};
ghost use Rattle.mos_message_reading.specs.Values.{IsNamed};
ghost use Rattle.mos_reader.specs.Answers.{fed};
ghost use Rattle.mos_values.specs.Sound.{IsSound};
ghost use Rattle.mos_values.specs.declared.message.Envelope.{Envelope as Enveloped};
ghost use Rattle.value_laws.specs.Ranges.{IsInRange};
ghost use Rattle.mos_codec.specs.Codec.{EncodesEnvelope};
ghost use Rattle.mos_codec.specs.Decoding.{ComesFirst, HandsOut, HasTaken, IsKept, TellsFed, bytes_behind, handed_more, rests, start_decoder};
ghost use Rattle.mos_codec.specs.Words.{FedInWords};
ghost use Rattle.mos_codec.specs.declared.fault.DecodeFault.{DecodeFault as FaultOf};

use crate::blank::are_blank;
use crate::fault::DecodeFault;
use crate::whole::{Placed, take_first, take_piece};
use input_laws::laws::{refusals_are_shown, streams_go_on};
use mos_decoder::EventDecoder;
use mos_reader::ReadFault;
use mos_values::Envelope;
use std::alloc::Global;
use std::collections::VecDeque;
use std::marker::Model;

/// Hands out the messages of a stream of bytes as envelopes.
///
/// It holds the code units that were fed since the last whole message, an odd byte, and the whole messages of the last
/// piece that weren't handed out yet. Each code unit is read once.
#[derive(Drop)]
pub struct Decoder {
    alloc: Global,
    events: EventDecoder,
    ready: VecDeque<Placed>,
    began: usize,
    fault: Option<DecodeFault>,
}

impl Model for Decoder {
    ghost use Rattle.std.specs.Prelude.{◌≡◌, None};
    ghost use Rattle.std.specs.List.{AllByRecursion};
    ghost use Rattle.mos_codec.specs.Decoding.{DecoderState, IsReady};

    ghost Value = { DecoderState };

    ghost view = { λ d. record { bytes = d.events; ready = d.ready.items; began = d.began; fault = d.fault } };

    ghost invariant = { λ d. AllByRecursion IsReady d.ready.items };
}

impl Decoder {
    /// A decoder to which nothing was fed. It takes no memory yet.
    pub fn new(alloc: Global) -> Self
        ensures start { result ≡ start_decoder }
        ensures nothing { HasTaken result [] [] }
    {
        Decoder {
            alloc,
            events: EventDecoder::new(alloc),
            ready: VecDeque::new(alloc),
            began: 0,
            fault: None,
        }
    }

    /// How many whole code units were fed, those of the piece that shows a rejection among them. Behind `NoMemory` the number
    /// means nothing. It takes no memory.
    pub fn place(&self) -> usize
        ensures { result ≡ fed (self.now).bytes.stream }
    {
        self.events.place()
    }

    /// Where the `<mos` of the message begins that was handed out last: so many code units of the stream stand before it;
    /// 0 before the first. It takes no memory.
    pub fn began(&self) -> usize
        ensures { result ≡ (self.now).began }
    {
        self.began
    }

    /// How many bytes were fed since the last whole message, an odd one with them; 2^64 - 1 where that is smaller. Behind
    /// `Refused` those of the message that was rejected are counted, and all that was fed behind it in the same piece; behind
    /// `NoMemory` the number means nothing. It takes no memory.
    pub fn behind(&self) -> usize
        ensures { result ≡ bytes_behind (self.now).bytes }
    {
        let odd = match self.events.odd_byte() {
            Some(_) => 1,
            None => 0,
        };
        self.events
            .held()
            .len()
            .saturating_mul(2)
            .saturating_add(odd)
    }

    /// Whether nothing but white space and U+FEFF was fed since the last whole message; behind `NoMemory` the answer means
    /// nothing. It takes no memory.
    pub fn is_empty(&self) -> bool
        ensures { result ≡ rests (self.now).bytes }
    {
        match self.events.odd_byte() {
            Some(_) => false,
            None => are_blank(self.events.held()),
        }
    }

    /// Feeds more bytes of the stream. No whole message may be left to be handed out: call `next` until it answers None.
    ///
    /// The messages that are whole with them are handed out by `next`, also those before a rejection. Where what was fed
    /// since the last whole message begins with an encoding of an envelope, that envelope is the first, whatever follows. With
    /// `Ok` the bytes fed are encodings of the messages that were handed out and of those that are ready, and behind them one
    /// more is begun, of which `behind` and `is_empty` tell.
    ///
    /// # Errors
    /// `Refused` with the place, in code units from the beginning of the stream, and the kind of the first fault that all
    /// bytes fed so far show, behind the messages that were handed out and are ready: a rejection in words of the grammar,
    /// which stands whatever would follow. `NoMemory` where memory runs out; then no message of the piece is handed out. Each later
    /// call answers the same and changes nothing.
    pub fn feed(&mut self, piece: &[u8]) -> Result<(), DecodeFault>
        requires taken { (self.old).ready ≡ [] }
        requires room { fed (self.old).bytes.stream + length piece.now < 2 ^ 64 }
        ensures tells { (before : List ℕ) (found : List FoundOf) → HasTaken self.old before found → TellsFed (before ++ piece.now) found result self.new }
        ensures words { (before : List ℕ) (found : List FoundOf) → HasTaken self.old before found → are_bytes (before ++ piece.now) ≡ true → FedInWords (before ++ piece.now) found result self.new }
        ensures first { (e : Enveloped) (us rest : List ℕ) → (self.old).fault ≡ None → (self.old).bytes.stream.fault ≡ None → EncodesEnvelope us e → (self.old).bytes.stream.held ++ units_in (behind_odd (self.old).bytes.odd piece.now) ≡ us ++ rest → ComesFirst e result (self.new).ready }
        ensures fault { IsKept result (self.new).fault }
        ensures same { (k : FaultOf) → (self.old).fault ≡ Some k → (result ≡ Err k) × (self.new ≡ self.old) }
        ensures began { (self.new).began ≡ (self.old).began }
    {
        match self.fault {
            Some(fault) => Err(fault),
            None => self.read(piece),
        }
    }

    fn read(&mut self, piece: &[u8]) -> Result<(), DecodeFault>
        requires taken { (self.old).ready ≡ [] }
        requires clean { (self.old).fault ≡ None }
        requires room { fed (self.old).bytes.stream + length piece.now < 2 ^ 64 }
        ensures tells { (before : List ℕ) (found : List FoundOf) → HasTaken self.old before found → TellsFed (before ++ piece.now) found result self.new }
        ensures words { (before : List ℕ) (found : List FoundOf) → HasTaken self.old before found → are_bytes (before ++ piece.now) ≡ true → FedInWords (before ++ piece.now) found result self.new }
        ensures first { (e : Enveloped) (us rest : List ℕ) → (self.old).bytes.stream.fault ≡ None → EncodesEnvelope us e → (self.old).bytes.stream.held ++ units_in (behind_odd (self.old).bytes.odd piece.now) ≡ us ++ rest → ComesFirst e result (self.new).ready }
        ensures fault { IsKept result (self.new).fault }
        ensures began { (self.new).began ≡ (self.old).began }
    {
        streams_go_on();
        refusals_are_shown();
        match take_piece(self.alloc, &mut self.events, piece, &mut self.ready) {
            Ok(()) => Ok(()),
            Err(ReadFault::Rejected(place, kind)) => {
                let fault = DecodeFault::Refused { place, kind };
                self.fault = Some(fault);
                Err(fault)
            }
            Err(ReadFault::NoMemory) => {
                self.ready = VecDeque::new(self.alloc);
                self.fault = Some(DecodeFault::NoMemory);
                Err(DecodeFault::NoMemory)
            }
        }
    }

    /// The next message that is whole, in the order of the stream; None exactly where none is left. It takes no memory. Each
    /// is sound, so that it may be taken as a command, and encoded again.
    pub fn next(&mut self) -> Option<Envelope>
        ensures hands { HandsOut (self.old).ready result self.old self.new }
        ensures none { IfNone result ((self.new).ready ≡ []) }
        ensures taken { (bytes : List ℕ) (found : List FoundOf) → HasTaken self.old bytes found → HasTaken self.new bytes (handed_more found result (self.new).began) }
        ensures named { IfSome result (λ e. IsNamed e.message) }
        ensures in_range { IfSome result (λ e. IsInRange e.message) }
        ensures sound { IfSome result (λ e. IsSound e.message) }
    {
        match take_first(&mut self.ready) {
            Some(placed) => {
                self.began = placed.began;
                Some(placed.envelope)
            }
            None => None,
        }
    }
}
