//! Reading a stream of bytes.
ghost use Rattle.std.specs.Prelude.{◌≡◌, ◌+◌, ◌<◌, ◌^◌, ◌++◌, ℕ, List, [], Err, None, Some, IsSome, false, OnErr, OnOk, length};
ghost use Rattle.mos_lexer.specs.declared.kind.Kind.TheVariants.{End as ending};
ghost use Rattle.mos_lexer.specs.Units.{Found as FoundOf};
ghost use Rattle.mos_reader.specs.Answers.{Answers, failed_with, fed};
ghost use Rattle.mos_reader.specs.declared.found.ReadFault.{ReadFault as ReadFaultOf};
ghost use Rattle.mos_reader.specs.declared.found.ReadFault.TheVariants.{Rejected};
ghost use Rattle.mos_decoder.specs.Bytes.{AnswersEnd, HandsValue, HasHanded, IsKept, OnFound, Tells, TellsEnd, counted, fed_bytes, start_bytes};

use crate::units::units_behind;
use mos_fields::NoMemory;
use mos_lexer::Kind;
use mos_reader::{Found, ReadFault, Reader};
use std::alloc::Global;
use std::marker::Model;

/// Hands out the messages of a stream of bytes as the events of their canonical encodings.
///
/// Contracts see of it the code units that were fed since the last message that it handed out, how many stand before them in
/// the stream, an odd byte, and how many messages were handed out. How much memory it keeps is no part of them.
#[derive(Drop)]
pub struct EventDecoder {
    alloc: Global,
    reader: Reader,
    odd: Option<u8>,
    /// so many messages were handed out
    count: usize,
}

impl Model for EventDecoder {
    ghost use Rattle.std.specs.Prelude.{◌≤◌};
    ghost use Rattle.mos_decoder.specs.Bytes.{ByteStream};

    ghost Value = { ByteStream };

    ghost view = { λ d. record { stream = d.reader; odd = d.odd; count = d.count } };

    ghost invariant = { λ d. d.count ≤ (d.reader).base };
}

impl EventDecoder {
    /// A decoder to which nothing was fed. It takes no memory yet.
    pub fn new(alloc: Global) -> Self
        ensures start { result ≡ start_bytes }
        ensures nothing { HasHanded result [] [] }
    {
        EventDecoder {
            alloc,
            reader: Reader::new(alloc),
            odd: None,
            count: 0,
        }
    }

    /// How many whole code units were fed.
    pub fn place(&self) -> usize
        ensures { result ≡ fed (self.now).stream }
    {
        self.reader.place()
    }

    /// How many messages were handed out.
    pub fn count(&self) -> usize
        ensures { result ≡ (self.now).count }
    {
        self.count
    }

    /// The code units that were fed behind the last message that was handed out.
    pub fn held(&self) -> &[u16]
        ensures { result.now ≡ (self.now).stream.held }
    {
        self.reader.held()
    }

    /// The byte that was fed behind the last whole code unit, if there is one.
    pub fn odd_byte(&self) -> Option<u8>
        ensures { result ≡ (self.now).odd }
    {
        self.odd
    }

    /// Feeds more bytes of the stream. Where it is read no further, they are dropped.
    ///
    /// # Errors
    /// `NoMemory` where memory runs out; then nothing was fed, and it may be tried again.
    pub fn feed(&mut self, bytes: &[u8]) -> Result<(), NoMemory>
        requires room { fed (self.old).stream + length bytes.now < 2 ^ 64 }
        ensures fed { OnOk result (self.new ≡ fed_bytes self.old bytes.now) }
        ensures unchanged { OnErr result (self.new ≡ self.old) }
        ensures handed { OnOk result ((before : List ℕ) (found : List FoundOf) → HasHanded self.old before found → HasHanded self.new (before ++ bytes.now) found) }
    {
        let (units, odd) = units_behind(self.alloc, self.odd, bytes)?;
        self.reader.feed(units.as_slice())?;
        self.odd = odd;
        Ok(())
    }

    /// The next message, `None` where more is to be fed before one is complete, or why the stream is read no further.
    ///
    /// # Errors
    /// `Rejected` with the place, in code units from the beginning of the stream, and the kind of the first fault.
    /// `NoMemory` where memory runs out. Either is answered from then on.
    pub fn next(&mut self) -> Result<Option<Found>, ReadFault>
        ensures answer { Answers false (self.old).stream.fault (self.old).stream result (self.new).stream }
        ensures odd { (self.new).odd ≡ (self.old).odd }
        ensures count { (self.new).count ≡ counted result (self.old).count }
        ensures tells { (bytes : List ℕ) (found : List FoundOf) → HasHanded self.old bytes found → Tells bytes found result self.new }
        ensures shorter { OnFound result (length (self.new).stream.held < length (self.old).stream.held) }
        ensures value { HandsValue result }
        ensures kept { IsKept result (self.new).stream.fault }
        ensures same { (k : ReadFaultOf) → (self.old).stream.fault ≡ Some k → (result ≡ Err k) × (self.new ≡ self.old) }
    {
        match self.reader.next() {
            Ok(Some(found)) => {
                self.count += 1;
                Ok(Some(found))
            }
            Ok(None) => Ok(None),
            Err(fault) => Err(fault),
        }
    }

    /// The same, where the input ends behind what was fed: `None` where nothing but white space and U+FEFF stands behind
    /// the last message.
    ///
    /// # Errors
    /// `Rejected` with the number of whole code units that were fed and the kind `End` where a message was begun and
    /// isn't complete, or an odd byte is left; else as `next`. Either is answered from then on, by `next` too.
    pub fn end(&mut self) -> Result<Option<Found>, ReadFault>
        ensures answer { AnswersEnd (self.old).odd (self.old).stream.fault (self.old).stream result (self.new).stream }
        ensures odd { (self.new).odd ≡ (self.old).odd }
        ensures kept { IsKept result (self.new).stream.fault }
        ensures same { (k : ReadFaultOf) → (self.old).stream.fault ≡ Some k → (result ≡ Err k) × (self.new ≡ self.old) }
        ensures count { (self.new).count ≡ counted result (self.old).count }
        ensures tells { (bytes : List ℕ) (found : List FoundOf) → HasHanded self.old bytes found → TellsEnd bytes found result self.new }
        ensures shorter { OnFound result (length (self.new).stream.held < length (self.old).stream.held) }
        ensures value { HandsValue result }
    {
        match self.odd {
            None => self.end_with_a_unit(),
            Some(_) => self.end_in_a_unit(),
        }
    }

    /// The input ends behind whole code units.
    fn end_with_a_unit(&mut self) -> Result<Option<Found>, ReadFault>
        requires { (self.old).odd ≡ None }
        ensures answer { AnswersEnd (self.old).odd (self.old).stream.fault (self.old).stream result (self.new).stream }
        ensures odd { (self.new).odd ≡ (self.old).odd }
        ensures count { (self.new).count ≡ counted result (self.old).count }
        ensures tells { (bytes : List ℕ) (found : List FoundOf) → HasHanded self.old bytes found → TellsEnd bytes found result self.new }
        ensures shorter { OnFound result (length (self.new).stream.held < length (self.old).stream.held) }
        ensures value { HandsValue result }
    {
        match self.reader.end() {
            Ok(Some(found)) => {
                self.count += 1;
                Ok(Some(found))
            }
            Ok(None) => Ok(None),
            Err(fault) => Err(fault),
        }
    }

    /// The input ends behind an odd byte.
    fn end_in_a_unit(&mut self) -> Result<Option<Found>, ReadFault>
        requires { IsSome (self.old).odd }
        ensures answer { AnswersEnd (self.old).odd (self.old).stream.fault (self.old).stream result (self.new).stream }
        ensures odd { (self.new).odd ≡ (self.old).odd }
        ensures count { (self.new).count ≡ counted result (self.old).count }
        ensures tells { (bytes : List ℕ) (found : List FoundOf) → HasHanded self.old bytes found → TellsEnd bytes found result self.new }
        ensures shorter { OnFound result (length (self.new).stream.held < length (self.old).stream.held) }
        ensures value { HandsValue result }
    {
        match self.next() {
            Ok(Some(found)) => Ok(Some(found)),
            Ok(None) => Err(self.cut_off()),
            Err(fault) => Err(fault),
        }
    }

    /// The input is cut off inside a code unit: the stream is read no further.
    fn cut_off(&mut self) -> ReadFault
        ensures fault { result ≡ Rejected (fed (self.old).stream) ending }
        ensures stream { (self.new).stream ≡ failed_with result (self.old).stream }
        ensures odd { (self.new).odd ≡ (self.old).odd }
        ensures count { (self.new).count ≡ (self.old).count }
    {
        let fault = ReadFault::Rejected(self.place(), Kind::End);
        self.reader.stop(fault);
        fault
    }
}
