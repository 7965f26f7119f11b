//! Looking for the first message of a connection.
ghost use Rattle.std.specs.Prelude.{◌≡◌, ℕ, ◌+◌, ◌<◌, ◌≤◌, ◌^◌, List, [], ◌++◌, IfOk, Option, length, vec_len};
ghost use Rattle.mos_codec.specs.Decoding.{HasTaken};
ghost use Rattle.port_looking.specs.Looking.{Names};
ghost use Rattle.port_looking.specs.Steps.{Fed, FirstNames, Looked, Looking, NamedBy, ReadCame, Settles, StandsAt, Stepped, TakesIn};

use mos_codec::{DecodeFault, Decoder};
use mos_fields::{Id, Ids, NoMemory, let_go};
use mos_io::Source;
use mos_values::Envelope;
use std::alloc::Global;

/// Why no device was found.
#[derive(Clone, Copy, Drop)]
pub enum Lack {
    /// A read failed.
    Read,
    /// Memory ran out.
    Memory,
}

/// The most bytes of one read.
const PIECE: usize = 16_384;

// Room for so many bytes.
fn room(alloc: Global) -> Result<Vec<u8>, NoMemory>
    ensures { IfOk result (λ piece. 0 < vec_len piece) }
{
    Ok(vec![in alloc; 0u8; PIECE]?)
}

// The smaller of both.
fn piece_size(length: usize, most: u64) -> usize
    requires { (0 < length) × (0 < most) }
    ensures some { 0 < result }
    ensures within { result ≤ length }
    ensures most { result ≤ most }
{
    if most < length as u64 {
        most as usize
    } else {
        length
    }
}

// One read of at most so many bytes, to the front of the buffer.
fn read_piece<S: Source>(source: &mut S, buffer: &mut [u8], most: u64) -> Result<usize, Lack>
    requires { (0 < length buffer.old) × (0 < most) }
    ensures read { ReadCame (S.left source.old) (S.left source.new) (S.faults source.old) (S.faults source.new) most buffer.new result }
    ensures rises { S.faults source.old ≤ S.faults source.new }
    ensures room { length buffer.new ≡ length buffer.old }
{
    let size = piece_size(buffer.len(), most);
    match source.read(&mut buffer[..size]) {
        Ok(count) => Ok(count),
        Err(_) => Err(Lack::Read),
    }
}

// The place of the name.
fn find_place(names: &Ids, id: &Id) -> Option<usize>
    ensures { StandsAt names.now id.now result }
{
    for i in 0..names.len() {
        if let Some(name) = names.get(i) {
            if name.is(id) {
                return Some(i);
            }
        }
    }
    None
}

// The place of the name, or 0 where it isn't there.
fn place_of(names: &Ids, id: &Id) -> u32
    requires { (0 < length names.now) × (length names.now ≤ 64) }
    ensures names { Names names.now id.now result }
    ensures within { result < length names.now }
{
    match find_place(names, id) {
        Some(i) => i as u32,
        None => 0,
    }
}

// The device that the message names.
fn device_of(message: &Option<Envelope>, names: &Ids) -> Option<u32>
    requires { (0 < length names.now) × (length names.now ≤ 64) }
    ensures { NamedBy names.now message.now result }
{
    match message {
        Some(e) => Some(place_of(names, &e.mos)),
        None => None,
    }
}

// The device that the first message that is whole names. None where none is.
fn first_device(decoder: &mut Decoder, names: &Ids) -> Option<u32>
    requires { (0 < length names.now) × (length names.now ≤ 64) }
    ensures { FirstNames names.now decoder.old decoder.new result }
{
    let message = decoder.next();
    let device = device_of(&message, names);
    let_go(message);
    device
}

// What is known once a piece was fed.
fn settle(outcome: Result<(), DecodeFault>, found: Option<u32>) -> Result<Option<u32>, Lack>
    ensures { Settles outcome found result }
{
    match outcome {
        Ok(()) => Ok(found),
        Err(DecodeFault::Refused { place: _, kind: _ }) => match found {
            Some(device) => Ok(Some(device)),
            None => Ok(Some(0)),
        },
        Err(DecodeFault::NoMemory) => Err(Lack::Memory),
    }
}

// Feeds a piece of the stream. The device, once it is known.
fn feed_piece(decoder: &mut Decoder, piece: &[u8], names: &Ids) -> Result<Option<u32>, Lack>
    requires names { (0 < length names.now) × (length names.now ≤ 64) }
    requires ready { decoder.old.ready ≡ [] }
    requires taken { (read : List ℕ) × HasTaken decoder.old read [] × (length read + length piece.now < 2 ^ 64) }
    ensures { (read : List ℕ) → HasTaken decoder.old read [] → Fed names.now (read ++ piece.now) decoder.new result }
{
    let outcome = decoder.feed(piece);
    let found = first_device(decoder, names);
    settle(outcome, found)
}

// Keeps a piece behind the others, and feeds it.
fn take_in(
    decoder: &mut Decoder,
    piece: &[u8],
    front: &mut Vec<u8>,
    names: &Ids,
) -> Result<Option<u32>, Lack>
    requires names { (0 < length names.now) × (length names.now ≤ 64) }
    requires ready { decoder.old.ready ≡ [] }
    requires taken { HasTaken decoder.old front.old.items [] }
    requires room { vec_len front.old + length piece.now < 2 ^ 64 }
    ensures { TakesIn names.now front.old.items piece.now front.new.items decoder.new result }
{
    if front.extend_from_slice(piece).is_err() {
        return Err(Lack::Memory);
    }
    feed_piece(decoder, piece, names)
}

// One read. The device, once it is known.
fn step<S: Source>(
    source: &mut S,
    decoder: &mut Decoder,
    buffer: &mut [u8],
    front: &mut Vec<u8>,
    names: &Ids,
    budget: u64,
) -> Result<Option<u32>, Lack>
    requires names { (0 < length names.now) × (length names.now ≤ 64) }
    requires looking { (l : Option (List ℕ)) × Looking budget l (S.left source.old) front.old.items decoder.old }
    requires budget { vec_len front.old < budget }
    requires room { 0 < length buffer.old }
    ensures stepped { (l : Option (List ℕ)) (f : ℕ) → Looking budget l (S.left source.old) front.old.items decoder.old → f ≤ S.faults source.old → Stepped names.now budget l (S.left source.new) f (S.faults source.new) front.old.items front.new.items decoder.new result }
    ensures rises { S.faults source.old ≤ S.faults source.new }
    ensures room { length buffer.new ≡ length buffer.old }
{
    let most = budget - front.len() as u64;
    match read_piece(source, buffer, most) {
        Ok(0) => Ok(Some(0)),
        Ok(count) => take_in(decoder, &buffer[..count], front, names),
        Err(lack) => Err(lack),
    }
}

// Reads until the device is known.
fn look_on<S: Source>(
    source: &mut S,
    decoder: &mut Decoder,
    buffer: &mut [u8],
    front: &mut Vec<u8>,
    names: &Ids,
    budget: u64,
) -> Result<u32, Lack>
    requires names { (0 < length names.now) × (length names.now ≤ 64) }
    requires taken { HasTaken decoder.old [] [] }
    requires ready { decoder.old.ready ≡ [] }
    requires none { front.old.items ≡ [] }
    requires room { 0 < length buffer.old }
    ensures looked { Looked names.now budget (S.left source.old) (S.left source.new) (S.faults source.old) (S.faults source.new) front.new.items result }
    ensures rises { S.faults source.old ≤ S.faults source.new }
{
    'next: while (front.len() as u64) < budget {
        match step(source, decoder, buffer, front, names, budget) {
            Ok(None) => {}
            Ok(Some(device)) => return Ok(device),
            Err(lack) => return Err(lack),
        }
    }
    Ok(0)
}

// The same, with a decoder of its own.
fn look_anew<S: Source>(
    alloc: Global,
    source: &mut S,
    buffer: &mut [u8],
    front: &mut Vec<u8>,
    names: &Ids,
    budget: u64,
) -> Result<u32, Lack>
    requires names { (0 < length names.now) × (length names.now ≤ 64) }
    requires none { front.old.items ≡ [] }
    requires room { 0 < length buffer.old }
    ensures looked { Looked names.now budget (S.left source.old) (S.left source.new) (S.faults source.old) (S.faults source.new) front.new.items result }
    ensures rises { S.faults source.old ≤ S.faults source.new }
{
    let mut decoder = Decoder::new(alloc);
    let found = look_on(source, &mut decoder, buffer, front, names, budget);
    let_go(decoder);
    found
}

/// Reads until the device is known, and puts what was read into `front`, which is empty. At most `budget` bytes are read.
pub(crate) fn look_in<S: Source>(
    alloc: Global,
    source: &mut S,
    front: &mut Vec<u8>,
    names: &Ids,
    budget: u64,
) -> Result<u32, Lack>
    requires names { (0 < length names.now) × (length names.now ≤ 64) }
    requires none { front.old.items ≡ [] }
    ensures looked { Looked names.now budget (S.left source.old) (S.left source.new) (S.faults source.old) (S.faults source.new) front.new.items result }
    ensures rises { S.faults source.old ≤ S.faults source.new }
{
    let Ok(mut buffer) = room(alloc) else {
        return Err(Lack::Memory);
    };
    look_anew(alloc, source, buffer.as_mut_slice(), front, names, budget)
}
