//! Reading a stream.
ghost use Rattle.std.specs.Prelude.{◌≡◌, ◌+◌, ◌<◌, ◌≤◌, ◌^◌, None, false, true, OnErr, OnOk, drop, length, IfOk};
ghost use Rattle.mos_reader.specs.Answers.{Answers, ComesTo, failed_with, fed, fed_on, run_of, start_stream};
ghost use Rattle.mos_reader.specs.Places.{Ended, HasRead, rests_at};

use crate::found::{Found, ReadFault};
use crate::outcome::Outcome;
use crate::reading::Reading;
use mos_fields::NoMemory;
use mos_lexer::Kind;
use std::alloc::Global;
use std::marker::Model;

/// Reads messages one after another from the code units that are fed.
///
/// Contracts see of it the units that were fed since the last message that it handed out, how many stand before them in the
/// stream, and its fault. How much memory it keeps is no part of them.
#[derive(Drop)]
pub struct Reader {
    alloc: Global,
    held: Vec<u16>,
    /// so many of the units that are held belong to messages that were handed out
    from: usize,
    /// so many units were fed before the one behind those
    base: usize,
    reading: Reading,
    fault: Option<ReadFault>,
}

impl Model for Reader {
    ghost use Rattle.std.specs.Prelude.{drop};
    ghost use Rattle.mos_reader.specs.Answers.{Stream};
    ghost use Rattle.mos_reader.specs.Kept.{IsKept};

    ghost Value = { Stream };

    ghost view = { λ r. record { base = r.base; held = drop r.from r.held.items; fault = r.fault } };

    ghost invariant = { λ r. IsKept r.held.items r.from r.base r.reading r.fault };
}

/// What is held behind the units of messages that were handed out.
fn behind(units: &[u16], from: usize) -> &[u16]
    requires { from ≤ length units.now }
    ensures { result.now ≡ drop from units.now }
{
    &units[from..]
}

fn read_held(
    reading: &mut Reading,
    alloc: Global,
    units: &[u16],
    from: usize,
) -> Result<Outcome, NoMemory>
    requires within { from ≤ length units.now }
    requires read { HasRead reading.old (drop from units.now) }
    ensures { IfOk result (λ o. Ended o reading.new (drop from units.now)) }
{
    reading.read_on(alloc, behind(units, from))
}

/// Whether all of it was read, and nothing but white space and U+FEFF stands there.
fn is_at_rest(reading: &Reading, units: &[u16], from: usize) -> bool
    requires within { from ≤ length units.now }
    requires read { HasRead reading.now (drop from units.now) }
    ensures { result ≡ rests_at reading.now (drop from units.now) }
{
    reading.is_resting(behind(units, from))
}

impl Reader {
    /// A reader to which nothing was fed. It takes no memory yet.
    pub fn new(alloc: Global) -> Self
        ensures { result ≡ start_stream }
    {
        Reader {
            alloc,
            held: Vec::new(alloc),
            from: 0,
            base: 0,
            reading: Reading::new(alloc),
            fault: None,
        }
    }

    /// How many code units were fed.
    pub fn place(&self) -> usize
        ensures { result ≡ fed self.now }
    {
        self.base + (self.held.len() - self.from)
    }

    /// The code units that were fed behind the last message that was handed out.
    pub fn held(&self) -> &[u16]
        ensures { result.now ≡ (self.now).held }
    {
        behind(&self.held, self.from)
    }

    /// Lets go of the units of messages that were handed out.
    fn forget(&mut self) -> Result<(), NoMemory>
        ensures { self.new ≡ self.old }
    {
        if self.from > 0 {
            self.held = Vec::from_slice(self.alloc, behind(&self.held, self.from))?;
            self.from = 0;
        }
        Ok(())
    }

    /// Feeds more code units of the stream. Where it is read no further, nothing is done.
    ///
    /// # Errors
    /// `NoMemory` where memory runs out; then nothing was fed, and it may be tried again.
    pub fn feed(&mut self, units: &[u16]) -> Result<(), NoMemory>
        requires room { fed self.old + length units.now < 2 ^ 64 }
        ensures fed { OnOk result (self.new ≡ fed_on (self.old).fault self.old units.now) }
        ensures unchanged { OnErr result (self.new ≡ self.old) }
    {
        match self.fault {
            Some(_) => Ok(()),
            None => self.append(units),
        }
    }

    fn append(&mut self, units: &[u16]) -> Result<(), NoMemory>
        requires room { fed self.old + length units.now < 2 ^ 64 }
        requires fault { (self.old).fault ≡ None }
        ensures fed { OnOk result (self.new ≡ fed_on None self.old units.now) }
        ensures unchanged { OnErr result (self.new ≡ self.old) }
    {
        self.forget()?;
        self.reading.stay(behind(&self.held, self.from), units);
        self.held.extend_from_slice(units)?;
        Ok(())
    }

    /// The next message of the stream, `None` where more is to be fed before one is complete, or why the stream is read
    /// no further: exactly what the definition of reading code unit after code unit says of what was fed.
    ///
    /// # Errors
    /// `Rejected` with the place, counted from the beginning of the stream, and the kind of the first fault. `NoMemory`
    /// where memory runs out. Either is answered from then on.
    pub fn next(&mut self) -> Result<Option<Found>, ReadFault>
        ensures answer { Answers false (self.old).fault self.old result self.new }
        ensures bounded { fed self.new < 2 ^ 64 }
    {
        match self.fault {
            Some(fault) => Err(fault),
            None => self.read(false),
        }
    }

    /// The same, where the input ends behind what was fed: `None` where nothing but white space and U+FEFF stands behind
    /// the last message.
    ///
    /// # Errors
    /// `Rejected` with the number of code units that were fed and the kind `End` where a message was begun and isn't
    /// complete; else as `next`.
    pub fn end(&mut self) -> Result<Option<Found>, ReadFault>
        ensures answer { Answers true (self.old).fault self.old result self.new }
        ensures bounded { fed self.new < 2 ^ 64 }
    {
        match self.fault {
            Some(fault) => Err(fault),
            None => self.read(true),
        }
    }

    /// Reads the stream no further: `next` and `end` answer this fault from then on.
    pub fn stop(&mut self, fault: ReadFault)
        ensures { self.new ≡ failed_with fault self.old }
    {
        self.fault = Some(fault);
    }

    fn read(&mut self, at_end: bool) -> Result<Option<Found>, ReadFault>
        requires { (self.old).fault ≡ None }
        ensures answer { ComesTo (run_of at_end self.old) self.old result self.new }
        ensures bounded { fed self.new < 2 ^ 64 }
    {
        match read_held(&mut self.reading, self.alloc, &self.held, self.from) {
            Err(_) => {
                self.fault = Some(ReadFault::NoMemory);
                Err(ReadFault::NoMemory)
            }
            Ok(Outcome::ReadsOn) => {
                if at_end && !is_at_rest(&self.reading, &self.held, self.from) {
                    let ended = ReadFault::Rejected(
                        self.base + (self.held.len() - self.from),
                        Kind::End,
                    );
                    self.fault = Some(ended);
                    return Err(ended);
                }
                Ok(None)
            }
            Ok(Outcome::Completes(began)) => {
                let read = self.reading.here;
                let found = Found {
                    began: self.base + began,
                    value: self.reading.take_value(),
                };
                self.from += read;
                self.base += read;
                Ok(Some(found))
            }
            Ok(Outcome::Rejects(place, kind)) => {
                let fault = ReadFault::Rejected(self.base + place, kind);
                self.fault = Some(fault);
                Err(fault)
            }
        }
    }
}
