//! One read.
ghost use Rattle.std.specs.Prelude.{◌<◌, ◌≤◌, IfOk, OnOk, length, vec_len};
ghost use Rattle.port_session.specs.Pieces.{ReadCame};

use crate::end::End;
use mos_fields::NoMemory;
use mos_io::Source;
use std::alloc::Global;

/// The most bytes of one read.
const PIECE: usize = 16_384;

// Room for so many bytes.
fn room(alloc: Global) -> Result<Vec<u8>, NoMemory>
    ensures { IfOk result (λ piece. 0 < vec_len piece) }
{
    Ok(vec![in alloc; 0u8; PIECE]?)
}

// Room, where there is none yet.
fn make_room(alloc: Global, buffer: &mut Vec<u8>) -> Result<(), NoMemory>
    ensures { OnOk result (0 < vec_len buffer.new) }
{
    if buffer.is_empty() {
        *buffer = room(alloc)?;
    }
    Ok(())
}

// The smaller of both.
fn piece_size(length: usize, most: u64) -> usize
    requires { (0 < length) × (0 < most) }
    ensures some { 0 < result }
    ensures within { result ≤ length }
    ensures most { result ≤ most }
{
    if most < length as u64 {
        most as usize
    } else {
        length
    }
}

// One read into room that there is.
fn read_into<S: Source>(source: &mut S, buffer: &mut [u8], most: u64) -> Result<usize, End>
    requires { (0 < length buffer.old) × (0 < most) }
    ensures read { ReadCame (S.left source.old) (S.left source.new) (S.faults source.old) (S.faults source.new) most buffer.new result }
    ensures rises { S.faults source.old ≤ S.faults source.new }
{
    let size = piece_size(buffer.len(), most);
    match source.read(&mut buffer[..size]) {
        Ok(count) => Ok(count),
        Err(_) => Err(End::ReadFault),
    }
}

/// One read of at most so many bytes, to the front of the buffer, which gets its room at the first read.
pub(crate) fn read_piece<S: Source>(
    alloc: Global,
    source: &mut S,
    buffer: &mut Vec<u8>,
    most: u64,
) -> Result<usize, End>
    requires { 0 < most }
    ensures read { ReadCame (S.left source.old) (S.left source.new) (S.faults source.old) (S.faults source.new) most buffer.new.items result }
    ensures rises { S.faults source.old ≤ S.faults source.new }
{
    if make_room(alloc, buffer).is_err() {
        return Err(End::NoMemory);
    }
    read_into(source, buffer.as_mut_slice(), most)
}
