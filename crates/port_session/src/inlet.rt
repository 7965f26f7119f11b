//! The messages of a source, within a budget.
ghost use Rattle.std.specs.Prelude.{◌≡◌, ◌+◌, ◌<◌, ◌≤◌, ℕ, List, [], None, Option, length, take, vec_len};
ghost use Rattle.mos_codec.specs.Decoding.{HasTaken};
ghost use Rattle.mos_io.specs.Bytes.{Takes};
ghost use Rattle.mos_values.specs.declared.message.Envelope.{Envelope as EnvelopeOf};
ghost use Rattle.port_session.specs.Reading.{Advances, EndedAt, GoesOn, InletReads};

use crate::buffer::read_piece;
use crate::end::End;
use mos_codec::{DecodeFault, Decoder};
use mos_io::Source;
use mos_lexer::Kind;
use mos_values::Envelope;
use std::alloc::Global;

/// Where and why a stream is rejected.
#[derive(Clone, Copy, Drop)]
pub struct Rejection {
    /// so many code units of the stream stand before the place
    pub place: u64,
    /// what doesn't fit there
    pub kind: Kind,
}

/// Hands out the messages of a source one by one.
///
/// It reads only where no whole message is held, and once at a call. A rejection is kept until the messages before it
/// were handed out.
#[derive(Drop)]
pub struct Inlet {
    pub decoder: Decoder,
    /// the decoder's rejection
    pub rejection: Option<Rejection>,
    /// how many bytes were read
    pub count: u64,
    /// how many bytes may be read
    pub budget: u64,
    pub buffer: Vec<u8>,
    pub alloc: Global,
}

/// What a call of an inlet comes to.
#[derive(Drop)]
pub enum Next {
    /// The next message.
    Message(Envelope),
    /// There was one read, which gave bytes, and no message is handed out yet.
    More,
    /// No message is left, and no more is read.
    Over(End),
}

impl Inlet {
    /// An inlet that may read so many bytes. It takes no memory yet.
    pub fn new(alloc: Global, budget: u64) -> Self
        ensures nothing { HasTaken result.decoder [] [] }
        ensures rejection { result.rejection ≡ None }
        ensures count { result.count ≡ 0 }
        ensures budget { result.budget ≡ budget }
    {
        Inlet {
            decoder: Decoder::new(alloc),
            rejection: None,
            count: 0,
            budget,
            buffer: Vec::new(alloc),
            alloc,
        }
    }

    /// Hands out a message that is held; else tells the rejection, or that the budget is spent; else reads once.
    pub fn advance<S: Source>(&mut self, source: &mut S) -> Next
        requires { (l : Option (List ℕ)) × (f : ℕ) × (given : List EnvelopeOf) × InletReads l f (S.left source.old) (S.faults source.old) self.old given }
        ensures next { (l : Option (List ℕ)) (f : ℕ) (given : List EnvelopeOf) → InletReads l f (S.left source.old) (S.faults source.old) self.old given → Advances l f (S.left source.new) (S.faults source.new) self.new given result }
        ensures budget { self.new.budget ≡ self.old.budget }
        ensures goes_on { GoesOn result (self.old).count self.new.count }
        ensures rises { S.faults source.old ≤ S.faults source.new }
    {
        match self.decoder.next() {
            Some(envelope) => Next::Message(envelope),
            None => self.go_on(source),
        }
    }

    // Where no message is held.
    fn go_on<S: Source>(&mut self, source: &mut S) -> Next
        requires ready { (self.old).decoder.ready ≡ [] }
        requires reads { (l : Option (List ℕ)) × (f : ℕ) × (given : List EnvelopeOf) × InletReads l f (S.left source.old) (S.faults source.old) self.old given }
        ensures next { (l : Option (List ℕ)) (f : ℕ) (given : List EnvelopeOf) → InletReads l f (S.left source.old) (S.faults source.old) self.old given → Advances l f (S.left source.new) (S.faults source.new) self.new given result }
        ensures budget { self.new.budget ≡ self.old.budget }
        ensures goes_on { GoesOn result (self.old).count self.new.count }
        ensures rises { S.faults source.old ≤ S.faults source.new }
    {
        if let Some(rejection) = self.rejection {
            return Next::Over(End::BadMessage {
                place: rejection.place,
                kind: rejection.kind,
            });
        }
        if self.count == self.budget {
            return Next::Over(End::Budget);
        }
        match read_piece(
            self.alloc,
            source,
            &mut self.buffer,
            self.budget - self.count,
        ) {
            Ok(0) => Next::Over(self.ended()),
            Ok(count) => self.take_in(count),
            Err(end) => Next::Over(end),
        }
    }

    // Where the source ended.
    fn ended(&self) -> End
        ensures { EndedAt (self.now).decoder.bytes result }
    {
        if self.decoder.is_empty() {
            return End::Closed;
        }
        End::Truncated {
            bytes: self.decoder.behind() as u64,
        }
    }

    // Feeds what was read.
    fn take_in(&mut self, count: usize) -> Next
        requires ready { (self.old).decoder.ready ≡ [] }
        requires rejection { (self.old).rejection ≡ None }
        requires room { (self.old).count + count ≤ (self.old).budget }
        requires buffer { count ≤ vec_len (self.old).buffer }
        requires some { 0 < count }
        requires reads { (l : Option (List ℕ)) × (f : ℕ) × (l' : Option (List ℕ)) × (f' : ℕ) × (given : List EnvelopeOf) × InletReads l f l' f' self.old given }
        ensures next { (l : Option (List ℕ)) (f : ℕ) (l' : Option (List ℕ)) (f' : ℕ) (l'' : Option (List ℕ)) (f'' : ℕ) (given : List EnvelopeOf) → InletReads l f l' f' self.old given → Takes l' l'' (take count (self.old).buffer.items) → f' ≤ f'' → Advances l f l'' f'' self.new given result }
        ensures budget { self.new.budget ≡ self.old.budget }
        ensures goes_on { GoesOn result (self.old).count self.new.count }
    {
        let outcome = self.decoder.feed(&self.buffer[..count]);
        self.count += count as u64;
        match outcome {
            Ok(()) => Next::More,
            Err(DecodeFault::Refused { place, kind }) => {
                self.rejection = Some(Rejection {
                    place: place as u64,
                    kind,
                });
                Next::More
            }
            Err(DecodeFault::NoMemory) => Next::Over(End::NoMemory),
        }
    }
}
