//! Reading a stream to its end.
ghost use Rattle.std.specs.Prelude.{◌≡◌, ◌≢◌, ◌≤◌, ◌<◌, ◌+◌, ◌^◌, ◌++◌, ℕ, [], false, Err, List, Option, IfOk, length, vec_len};
ghost use Rattle.mos_fields.specs.Characters.{units_in};
ghost use Rattle.mos_io.specs.Bytes.{AppendsFront};
ghost use Rattle.mos_io.specs.Counts.{Rose};
ghost use Rattle.mos_lexer.specs.Units.{Found as FoundOf};
ghost use Rattle.mos_reader.specs.Answers.{fed};
ghost use Rattle.mos_decoder.specs.Bytes.{HandsValue, HasHanded, IsReadValue, OnFound, found_of};
ghost use Rattle.stream_commands.specs.Running.{EndsSo, HasHeard, Hears, IsBounded, IsBrokenOff, IsCutOff, IsDone, IsPartWritten, IsRefused, Refuses, Stops, StopsPart, TellsAt, TellsMore, TellsPart, ToldBySome, WritesText};
ghost use Rattle.stream_commands.specs.Words.{IsDoneOf, IsRefusedOf, OfInput};

use crate::status::Status;
use crate::teller::Teller;
use input_laws::laws::{inputs_are_exact, refusals_are_shown, rejections_stay};
use mos_decoder::EventDecoder;
use mos_fields::NoMemory;
use mos_io::{Sink, SinkFault, Source};
use mos_lexer::Kind;
use mos_reader::{Found, ReadFault};
use std::alloc::Global;

/// So many bytes are read at once.
const PIECE: usize = 65_536;

/// Room for a piece of the input.
fn room(alloc: Global) -> Result<Vec<u8>, NoMemory>
    ensures { IfOk result (λ piece. 0 < vec_len piece) }
{
    Ok(vec![in alloc; 0u8; PIECE]?)
}

/// Writes a text, in one piece. Of an empty one nothing is written.
fn write_text<K: Sink>(text: &[u8], sink: &mut K) -> Result<(), Status>
    ensures written { WritesText text.now (K.written sink.old) (K.written sink.new) (K.faults sink.old) (K.faults sink.new) result }
    ensures rises { K.faults sink.old ≤ K.faults sink.new }
    ensures part { result ≡ Err Status.WriteFault → AppendsFront (K.written sink.old) (K.written sink.new) text.now }
{
    if text.is_empty() {
        return Ok(());
    }
    match sink.write_piece(text) {
        Ok(()) => Ok(()),
        Err(SinkFault::Failed) => Err(Status::WriteFault),
        Err(SinkFault::NoMemory) => Err(Status::NoMemory),
    }
}

/// Writes what is told of a message.
fn hear_message<T: Teller, K: Sink>(
    alloc: Global,
    teller: &mut T,
    found: Found,
    sink: &mut K,
) -> Result<(), Status>
    requires { IsReadValue found.value }
    ensures written { TellsMore (T.told teller.old) (T.told teller.new) (found_of found) (K.written sink.old) (K.written sink.new) (K.faults sink.old) (K.faults sink.new) result }
    ensures rises { K.faults sink.old ≤ K.faults sink.new }
    ensures part { result ≡ Err Status.WriteFault → TellsPart (T.told teller.old) (T.told teller.new) (found_of found) (K.written sink.old) (K.written sink.new) }
{
    match teller.tell(alloc, found) {
        Ok(text) => write_text(text.as_slice(), sink),
        Err(_) => Err(Status::NoMemory),
    }
}

/// Writes what is told of a rejection; the status of the run.
fn refuse<T: Teller, K: Sink>(
    alloc: Global,
    teller: &T,
    place: usize,
    kind: Kind,
    sink: &mut K,
) -> Status
    ensures written { Refuses (T.refusal teller.now place kind) (K.written sink.old) (K.written sink.new) (K.faults sink.old) (K.faults sink.new) result }
    ensures rises { K.faults sink.old ≤ K.faults sink.new }
    ensures part { result ≡ Status.WriteFault → AppendsFront (K.written sink.old) (K.written sink.new) (T.refusal teller.now place kind) }
{
    match teller.tell_refusal(alloc, place, kind) {
        Ok(text) => match write_text(text.as_slice(), sink) {
            Ok(()) => Status::Refused,
            Err(status) => status,
        },
        Err(_) => Status::NoMemory,
    }
}

/// The stream is read no further: writes what is told of a rejection; the status of the run.
fn stop<T: Teller, K: Sink>(alloc: Global, teller: &T, fault: ReadFault, sink: &mut K) -> Status
    ensures written { Stops (T.refusal teller.now) fault (K.written sink.old) (K.written sink.new) (K.faults sink.old) (K.faults sink.new) result }
    ensures rises { K.faults sink.old ≤ K.faults sink.new }
    ensures part { result ≡ Status.WriteFault → StopsPart (T.refusal teller.now) fault (K.written sink.old) (K.written sink.new) }
{
    match fault {
        ReadFault::Rejected(place, kind) => refuse(alloc, teller, place, kind, sink),
        ReadFault::NoMemory => Status::NoMemory,
    }
}

/// The next answer of a decoder, at the end of the input or before it.
fn ask(decoder: &mut EventDecoder, at_end: bool) -> Result<Option<Found>, ReadFault>
    ensures tells { (bytes : List ℕ) (found : List FoundOf) → HasHanded decoder.old bytes found → TellsAt at_end bytes found result decoder.new }
    ensures shorter { OnFound result (length (decoder.new).stream.held < length (decoder.old).stream.held) }
    ensures value { HandsValue result }
{
    if at_end {
        decoder.end()
    } else {
        decoder.next()
    }
}

/// Writes what is told of the messages that are whole, and of a rejection.
fn hear_all<T: Teller, K: Sink>(
    alloc: Global,
    decoder: &mut EventDecoder,
    at_end: bool,
    teller: &mut T,
    sink: &mut K,
) -> Result<(), Status>
    ensures heard { (bytes : List ℕ) (start : Option (List ℕ)) → HasHeard (T.told teller.old) bytes decoder.old start (K.written sink.old) → Hears at_end (T.told teller.new) (T.refusal teller.new) bytes result decoder.new start (K.written sink.new) (K.faults sink.old) (K.faults sink.new) }
    ensures rises { K.faults sink.old ≤ K.faults sink.new }
    ensures part { (bytes : List ℕ) (start : Option (List ℕ)) → HasHeard (T.told teller.old) bytes decoder.old start (K.written sink.old) → result ≡ Err Status.WriteFault → IsPartWritten (ToldBySome T.told) (T.told teller.new) (T.last teller.new) (T.refusal teller.new) bytes start (K.written sink.new) }
{
    'message: loop {
        match ask(decoder, at_end) {
            Ok(Some(found)) => match hear_message(alloc, teller, found, sink) {
                Ok(()) => {}
                Err(status) => return Err(status),
            },
            Ok(None) => return Ok(()),
            Err(fault) => return Err(stop(alloc, teller, fault, sink)),
        }
    }
}

/// Feeds bytes, and writes what is told of the messages that are whole, and of a rejection.
fn hear_piece<T: Teller, K: Sink>(
    alloc: Global,
    decoder: &mut EventDecoder,
    bytes: &[u8],
    teller: &mut T,
    sink: &mut K,
) -> Result<(), Status>
    requires room { fed (decoder.old).stream + length bytes.now < 2 ^ 64 }
    ensures heard { (before : List ℕ) (start : Option (List ℕ)) → HasHeard (T.told teller.old) before decoder.old start (K.written sink.old) → Hears false (T.told teller.new) (T.refusal teller.new) (before ++ bytes.now) result decoder.new start (K.written sink.new) (K.faults sink.old) (K.faults sink.new) }
    ensures rises { K.faults sink.old ≤ K.faults sink.new }
    ensures part { (before : List ℕ) (start : Option (List ℕ)) → HasHeard (T.told teller.old) before decoder.old start (K.written sink.old) → result ≡ Err Status.WriteFault → IsPartWritten (ToldBySome T.told) (T.told teller.new) (T.last teller.new) (T.refusal teller.new) (before ++ bytes.now) start (K.written sink.new) }
{
    match decoder.feed(bytes) {
        Err(_) => Err(Status::NoMemory),
        Ok(()) => hear_all(alloc, decoder, false, teller, sink),
    }
}

/// Writes what is told behind the last message.
fn write_last<T: Teller, K: Sink>(
    alloc: Global,
    decoder: &EventDecoder,
    teller: &T,
    sink: &mut K,
) -> Result<(), Status>
    ensures written { (bytes : List ℕ) (found : List FoundOf) → HasHanded decoder.now bytes found → WritesText (T.last teller.now (length found) (length (units_in bytes))) (K.written sink.old) (K.written sink.new) (K.faults sink.old) (K.faults sink.new) result }
    ensures rises { K.faults sink.old ≤ K.faults sink.new }
    ensures part { result ≡ Err Status.WriteFault → (bytes : List ℕ) (found : List FoundOf) → HasHanded decoder.now bytes found → AppendsFront (K.written sink.old) (K.written sink.new) (T.last teller.now (length found) (length (units_in bytes))) }
{
    match teller.tell_last(alloc, decoder.count(), decoder.place()) {
        Ok(text) => write_text(text.as_slice(), sink),
        Err(_) => Err(Status::NoMemory),
    }
}

/// The input ended: the status of the run.
fn end<T: Teller, K: Sink>(
    alloc: Global,
    decoder: &mut EventDecoder,
    teller: &mut T,
    sink: &mut K,
) -> Status
    ensures ended { (bytes : List ℕ) (start : Option (List ℕ)) → HasHeard (T.told teller.old) bytes decoder.old start (K.written sink.old) → EndsSo (T.told teller.new) (T.last teller.new) (T.refusal teller.new) bytes result start (K.written sink.new) (K.faults sink.old) (K.faults sink.new) }
    ensures part { (bytes : List ℕ) (start : Option (List ℕ)) → HasHeard (T.told teller.old) bytes decoder.old start (K.written sink.old) → result ≡ Status.WriteFault → IsPartWritten (ToldBySome T.told) (T.told teller.new) (T.last teller.new) (T.refusal teller.new) bytes start (K.written sink.new) }
{
    match hear_all(alloc, decoder, true, teller, sink) {
        Err(status) => status,
        Ok(()) => match write_last(alloc, decoder, teller, sink) {
            Ok(()) => Status::Done,
            Err(status) => status,
        },
    }
}

/// Reads a stream to its end, in pieces, with a decoder to which nothing was fed.
fn read_all<T: Teller, S: Source, K: Sink>(
    alloc: Global,
    teller: &mut T,
    source: &mut S,
    piece: &mut [u8],
    decoder: &mut EventDecoder,
    sink: &mut K,
) -> Status
    requires bounded { IsBounded (S.bound source.old) }
    requires full { 0 < length piece.old }
    requires nothing { HasHanded decoder.old [] [] }
    requires told { T.told teller.old [] [] }
    ensures done { result ≡ Status.Done → IsDone (T.told teller.new) (T.last teller.new) (S.left source.old) (S.left source.new) (K.written sink.old) (K.written sink.new) }
    ensures refused { result ≡ Status.Refused → IsRefused (T.told teller.new) (T.refusal teller.new) (S.left source.old) (S.left source.new) (K.written sink.old) (K.written sink.new) }
    ensures usage { result ≢ Status.Usage }
    ensures read_fault { result ≡ Status.ReadFault → Rose (S.faults source.old) (S.faults source.new) }
    ensures write_fault { result ≡ Status.WriteFault → Rose (K.faults sink.old) (K.faults sink.new) }
    ensures cut_off { result ≡ Status.ReadFault → IsCutOff (T.told teller.new) (S.left source.old) (S.left source.new) (K.written sink.old) (K.written sink.new) }
    ensures broken_off { result ≡ Status.WriteFault → IsBrokenOff (ToldBySome T.told) (T.told teller.new) (T.last teller.new) (T.refusal teller.new) (S.left source.old) (S.left source.new) (K.written sink.old) (K.written sink.new) }
{
    'piece: loop {
        match source.read(piece) {
            Err(_) => return Status::ReadFault,
            Ok(0) => return end(alloc, decoder, teller, sink),
            Ok(count) => match hear_piece(alloc, decoder, &piece[..count], teller, sink) {
                Ok(()) => {}
                Err(status) => return status,
            },
        }
    }
}

/// The same, with what the machine that reads comes to.
fn run_pieces<T: Teller, S: Source, K: Sink>(
    alloc: Global,
    teller: &mut T,
    source: &mut S,
    sink: &mut K,
) -> Status
    requires bounded { IsBounded (S.bound source.old) }
    requires told { T.told teller.old [] [] }
    ensures done { result ≡ Status.Done → IsDone (T.told teller.new) (T.last teller.new) (S.left source.old) (S.left source.new) (K.written sink.old) (K.written sink.new) }
    ensures refused { result ≡ Status.Refused → IsRefused (T.told teller.new) (T.refusal teller.new) (S.left source.old) (S.left source.new) (K.written sink.old) (K.written sink.new) }
    ensures usage { result ≢ Status.Usage }
    ensures read_fault { result ≡ Status.ReadFault → Rose (S.faults source.old) (S.faults source.new) }
    ensures write_fault { result ≡ Status.WriteFault → Rose (K.faults sink.old) (K.faults sink.new) }
    ensures cut_off { result ≡ Status.ReadFault → IsCutOff (T.told teller.new) (S.left source.old) (S.left source.new) (K.written sink.old) (K.written sink.new) }
    ensures broken_off { result ≡ Status.WriteFault → IsBrokenOff (ToldBySome T.told) (T.told teller.new) (T.last teller.new) (T.refusal teller.new) (S.left source.old) (S.left source.new) (K.written sink.old) (K.written sink.new) }
{
    match room(alloc) {
        Err(_) => Status::NoMemory,
        Ok(mut piece) => {
            let mut decoder = EventDecoder::new(alloc);
            read_all(alloc, teller, source, &mut piece, &mut decoder, sink)
        }
    }
}

/// Reads a stream of messages from `source` to its end, and writes to `sink` what the teller tells of it.
///
/// What is told of a message is written as soon as the message is whole, in one piece. A rejection ends the output with
/// what is told of its place, in code units from the beginning, and its kind.
///
/// `Done` comes where the input was read to its end and is a stream of messages with nothing but white space and U+FEFF
/// behind the last one; `Refused` where the bytes read show a rejection, or the input ends inside a message;
/// `ReadFault` and `WriteFault` only where the source's or the sink's count of faults rose; `Usage` never. With `ReadFault`
/// what is told of the messages that are whole was written, and nothing behind it; with `WriteFault` what was told before, then
/// perhaps a part of the next text, and nothing behind it. The source tells a bound below 2^64 on the bytes that it may
/// still give; the teller has told nothing yet.
pub fn run_stream<T: Teller, S: Source, K: Sink>(
    alloc: Global,
    teller: &mut T,
    source: &mut S,
    sink: &mut K,
) -> Status
    requires bounded { IsBounded (S.bound source.old) }
    requires told { T.told teller.old [] [] }
    ensures done { result ≡ Status.Done → IsDone (T.told teller.new) (T.last teller.new) (S.left source.old) (S.left source.new) (K.written sink.old) (K.written sink.new) }
    ensures refused { result ≡ Status.Refused → IsRefused (T.told teller.new) (T.refusal teller.new) (S.left source.old) (S.left source.new) (K.written sink.old) (K.written sink.new) }
    ensures usage { result ≢ Status.Usage }
    ensures read_fault { result ≡ Status.ReadFault → Rose (S.faults source.old) (S.faults source.new) }
    ensures write_fault { result ≡ Status.WriteFault → Rose (K.faults sink.old) (K.faults sink.new) }
    ensures cut_off { result ≡ Status.ReadFault → IsCutOff (T.told teller.new) (S.left source.old) (S.left source.new) (K.written sink.old) (K.written sink.new) }
    ensures broken_off { result ≡ Status.WriteFault → IsBrokenOff (ToldBySome T.told) (T.told teller.new) (T.last teller.new) (T.refusal teller.new) (S.left source.old) (S.left source.new) (K.written sink.old) (K.written sink.new) }
    ensures whole { result ≡ Status.Done → OfInput (S.left source.old) (IsDoneOf (T.told teller.new) (T.last teller.new) (K.written sink.old) (K.written sink.new)) }
    ensures rejected { result ≡ Status.Refused → OfInput (S.left source.old) (IsRefusedOf (T.told teller.new) (T.refusal teller.new) (K.written sink.old) (K.written sink.new)) }
{
    inputs_are_exact();
    refusals_are_shown();
    rejections_stay();
    run_pieces(alloc, teller, source, sink)
}
