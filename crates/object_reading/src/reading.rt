//! Reading the objects of a stream.
ghost use Rattle.std.specs.Prelude.{◌≡◌, ◌<◌, ◌+◌, ◌^◌, ◌++◌, ℕ, [], false, List, IfErr, IfOk, OnOk, length, vec_len};
ghost use Rattle.mos_decoder.specs.Bytes.{HandsValue, HasHanded, OnFound};
ghost use Rattle.mos_lexer.specs.Units.{Found as FoundOf};
ghost use Rattle.mos_reader.specs.Answers.{fed};
ghost use Rattle.stream_commands.specs.Running.{IsBounded, TellsAt};
ghost use Rattle.object_reading.specs.Progress.{HasTaken, TakesAll, stopped_by as stopped_by_of};
ghost use Rattle.object_reading.specs.Streams.{Explains, IsRead};

use crate::fault::ObjectsFault;
use crate::messages::take_message;
use mos_decoder::EventDecoder;
use mos_fields::{NoMemory, let_go};
use mos_io::Source;
use mos_reader::{Found, ReadFault};
use object_table::ObjectTable;
use std::alloc::Global;

/// So many bytes are read at once.
const PIECE: usize = 65_536;

/// Room for a piece of the input.
fn room(alloc: Global) -> Result<Vec<u8>, NoMemory>
    ensures { IfOk result (λ piece. 0 < vec_len piece) }
{
    Ok(vec![in alloc; 0u8; PIECE]?)
}

/// Why reading stops where the decoder does.
fn stopped_by(fault: ReadFault) -> ObjectsFault
    ensures { result ≡ stopped_by_of fault }
{
    match fault {
        ReadFault::Rejected(place, kind) => ObjectsFault::Refused {
            place: place as u64,
            kind,
        },
        ReadFault::NoMemory => ObjectsFault::NoMemory,
    }
}

/// The next answer of a decoder, at the end of the input or before it.
fn ask(decoder: &mut EventDecoder, at_end: bool) -> Result<Option<Found>, ReadFault>
    ensures tells { (bytes : List ℕ) (found : List FoundOf) → HasHanded decoder.old bytes found → TellsAt at_end bytes found result decoder.new }
    ensures shorter { OnFound result (length (decoder.new).stream.held < length (decoder.old).stream.held) }
    ensures value { HandsValue result }
{
    if at_end {
        decoder.end()
    } else {
        decoder.next()
    }
}

/// Takes the objects of the messages that are whole, up to the first cause to stop.
fn take_whole(
    alloc: Global,
    decoder: &mut EventDecoder,
    at_end: bool,
    table: &mut ObjectTable,
) -> Result<(), ObjectsFault>
    ensures { (bytes : List ℕ) → HasTaken bytes decoder.old table.old → TakesAll at_end bytes result decoder.new table.new }
{
    'message: loop {
        let number = decoder.count();
        match ask(decoder, at_end) {
            Ok(Some(found)) => match take_message(alloc, table, number as u64, found) {
                Ok(()) => {}
                Err(fault) => return Err(fault),
            },
            Ok(None) => return Ok(()),
            Err(fault) => return Err(stopped_by(fault)),
        }
    }
}

/// Feeds bytes, and takes the objects of the messages that are whole with them.
fn take_piece(
    alloc: Global,
    decoder: &mut EventDecoder,
    bytes: &[u8],
    table: &mut ObjectTable,
) -> Result<(), ObjectsFault>
    requires room { fed (decoder.old).stream + length bytes.now < 2 ^ 64 }
    ensures taken { (before : List ℕ) → HasTaken before decoder.old table.old → TakesAll false (before ++ bytes.now) result decoder.new table.new }
{
    match decoder.feed(bytes) {
        Ok(()) => take_whole(alloc, decoder, false, table),
        Err(_) => Err(ObjectsFault::NoMemory),
    }
}

/// Takes the objects of a stream, which is read in pieces to its end or to the first cause to stop, with a decoder to which
/// nothing was fed, into an empty table.
fn take_all<S: Source>(
    alloc: Global,
    source: &mut S,
    piece: &mut [u8],
    decoder: &mut EventDecoder,
    table: &mut ObjectTable,
) -> Result<(), ObjectsFault>
    requires bounded { IsBounded (S.bound source.old) }
    requires full { 0 < length piece.old }
    requires nothing { HasHanded decoder.old [] [] }
    requires empty { table.old ≡ [] }
    ensures read { OnOk result (IsRead (S.left source.old) (S.left source.new) table.new) }
    ensures fault { IfErr result (λ fault. Explains (S.left source.old) (S.left source.new) (S.faults source.old) (S.faults source.new) fault) }
{
    'piece: loop {
        match source.read(piece) {
            Err(_) => return Err(ObjectsFault::ReadFault),
            Ok(0) => return take_whole(alloc, decoder, true, table),
            Ok(count) => match take_piece(alloc, decoder, &piece[..count], table) {
                Ok(()) => {}
                Err(fault) => return Err(fault),
            },
        }
    }
}

/// Takes the objects of a stream into an empty table.
fn fill<S: Source>(
    alloc: Global,
    source: &mut S,
    table: &mut ObjectTable,
) -> Result<(), ObjectsFault>
    requires bounded { IsBounded (S.bound source.old) }
    requires empty { table.old ≡ [] }
    ensures read { OnOk result (IsRead (S.left source.old) (S.left source.new) table.new) }
    ensures fault { IfErr result (λ fault. Explains (S.left source.old) (S.left source.new) (S.faults source.old) (S.faults source.new) fault) }
{
    match room(alloc) {
        Ok(mut piece) => {
            let mut decoder = EventDecoder::new(alloc);
            take_all(alloc, source, &mut piece, &mut decoder, table)
        }
        Err(_) => Err(ObjectsFault::NoMemory),
    }
}

/// Reads a stream of messages mosObj from `source` to its end, and gives the table that took their objects, one after
/// another, whatever their envelopes. An empty stream gives an empty table.
///
/// The source tells a bound below 2^64 on the bytes that it may still give. Reading stops at the first cause in the stream,
/// and what stands behind that isn't looked at.
///
/// # Errors
/// `Refused` exactly where the stream is rejected, with the place, in code units from the beginning of what was read, and the
/// kind; an input that ends inside a message is of the kind `End`. `NotObject` exactly at the first message that isn't mosObj,
/// and `Full` exactly where the table doesn't take an object, each with the number of the message, counted from 0.
/// `ReadFault` comes only where the source's count of faults rose in this call, and none of these stands in what was read
/// before; `NoMemory` where memory runs out.
pub fn read_objects<S: Source>(alloc: Global, source: &mut S) -> Result<ObjectTable, ObjectsFault>
    requires bounded { IsBounded (S.bound source.old) }
    ensures read { IfOk result (λ table. IsRead (S.left source.old) (S.left source.new) table) }
    ensures fault { IfErr result (λ fault. Explains (S.left source.old) (S.left source.new) (S.faults source.old) (S.faults source.new) fault) }
{
    let mut table = ObjectTable::new(alloc);
    match fill(alloc, source, &mut table) {
        Ok(()) => Ok(table),
        Err(fault) => {
            let_go(table);
            Err(fault)
        }
    }
}
