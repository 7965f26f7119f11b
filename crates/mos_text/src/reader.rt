//! Reading characters as their bytes come.
ghost use Rattle.std.specs.Prelude.{◌≡◌, ◌<◌, ◌^◌, ◌++◌, true, Err, None, Some, IsOk, IfOk, OnOk, OnErr, MatchOption, take, length};
ghost use Rattle.mos_text.specs.Reading.{FeedAnswers, after, byte_char, byte_step as behind_byte, gained, is_reading, joined, start, without_memory};
ghost use Rattle.mos_text.specs.declared.fault.TextFault.{TextFault as FaultOf};
ghost use Rattle.mos_text.specs.declared.fault.TextFault.TheVariants.{NoMemory as out_of_memory};

use crate::fault::{NoMemory, TextFault};
use crate::reading::Reading;
use crate::steps::byte_step;
use std::marker::Model;

/// A reader of characters whose bytes come in pieces. Half a code unit and half a character are kept between pieces.
#[derive(Drop)]
pub struct UnitReader {
    reading: Reading,
}

impl Model for UnitReader {
    ghost use Rattle.std.specs.Prelude.{◌≡◌, true};
    ghost use Rattle.mos_text.specs.Reading.{is_reading};
    ghost use Rattle.mos_text.specs.declared.reading.Reading.{Reading};

    ghost Value = { Reading };

    ghost view = { λ r. r.reading };

    ghost invariant = { λ r. is_reading r.reading ≡ true };
}

impl UnitReader {
    /// A reader to which nothing was fed.
    pub fn new() -> Self
        ensures { result ≡ start }
    {
        UnitReader {
            reading: Reading {
                place: 0,
                odd: None,
                high: None,
                fault: None,
            },
        }
    }

    /// How many whole units were fed.
    pub fn place(&self) -> u64
        ensures { result ≡ (self.now).place }
    {
        self.reading.place
    }

    /// Appends the characters that a further piece completes; the units fed stay below 2^64.
    ///
    /// `BadUnit` comes exactly at the first unit that belongs to no character, `BadChar` exactly at the first character
    /// that XML 1.0 forbids; the characters before it are appended. Without memory nothing of the piece is appended. Each
    /// fault is answered by each later call, which counts units alone.
    pub fn feed(&mut self, piece: &[u8], out: &mut Vec<char>) -> Result<(), TextFault>
        requires { (after self.old piece.now).place < 2 ^ 64 }
        ensures answer { FeedAnswers self.old piece.now self.new out.old.items out.new.items result }
        ensures kept { (fault : FaultOf) → (self.old).fault ≡ Some fault → result ≡ Err fault }
    {
        let before = out.len();
        match read(self.reading, piece, out) {
            Ok(reading) => {
                self.reading = reading;
                answer(reading.fault)
            }
            Err(_fault) => {
                out.truncate(before);
                self.reading = pass(self.reading, piece, out);
                Err(TextFault::NoMemory)
            }
        }
    }
}

/// Reads on by one byte, and appends the character that it completes.
#[tactic(auto, using(crate::proofs::ReadingLemmas::waits_of, crate::proofs::ReadingLemmas::no_fault_of))]
fn take_byte(state: &mut Reading, byte: u8, out: &mut Vec<char>) -> Result<(), NoMemory>
    requires reading { is_reading state.old ≡ true }
    requires place { (behind_byte state.old byte).place < 2 ^ 64 }
    ensures after { state.new ≡ behind_byte state.old byte }
    ensures chars { OnOk result (out.new.items ≡ joined out.old.items (byte_char state.old byte)) }
    ensures err { OnErr result (out.new.items ≡ out.old.items) }
    ensures faultless { OnErr result ((state.old).fault ≡ None) }
{
    match byte_step(state, byte) {
        None => Ok(()),
        Some(c) => {
            out.push(c)?;
            Ok(())
        }
    }
}

/// Reads on by a piece, and appends the characters that it completes.
fn read(reading: Reading, piece: &[u8], out: &mut Vec<char>) -> Result<Reading, NoMemory>
    requires reading { is_reading reading ≡ true }
    requires place { (after reading piece.now).place < 2 ^ 64 }
    ensures after { IfOk result (λ t. t ≡ after reading piece.now) }
    ensures reading { IfOk result (λ t. is_reading t ≡ true) }
    ensures chars { OnOk result (out.new.items ≡ out.old.items ++ gained reading piece.now) }
    ensures front { take (length out.old.items) out.new.items ≡ out.old.items }
    ensures faultless { OnErr result (reading.fault ≡ None) }
{
    let mut state = reading;
    for &byte in piece {
        take_byte(&mut state, byte, out)?;
    }
    Ok(state)
}

/// Goes on by a piece for whose characters there was no memory.
fn pass(reading: Reading, piece: &[u8], out: &mut Vec<char>) -> Reading
    requires reading { is_reading reading ≡ true }
    requires place { (after reading piece.now).place < 2 ^ 64 }
    ensures after { result ≡ after (without_memory reading) piece.now }
    ensures reading { is_reading result ≡ true }
    ensures fault { result.fault ≡ Some out_of_memory }
    ensures chars { out.new.items ≡ out.old.items }
{
    let lacking = Reading {
        place: reading.place,
        odd: reading.odd,
        high: reading.high,
        fault: Some(TextFault::NoMemory),
    };
    match read(lacking, piece, out) {
        Ok(reading) => reading,
        Err(_) => unreachable!(),
    }
}

/// What a call answers where the reading has this fault.
fn answer(fault: Option<TextFault>) -> Result<(), TextFault>
    ensures { MatchOption fault (IsOk result) (λ f. result ≡ Err f) }
{
    match fault {
        None => Ok(()),
        Some(fault) => Err(fault),
    }
}
