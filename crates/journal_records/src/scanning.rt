//! The entries of a file.
ghost use Rattle.std.specs.Prelude.{◌≡◌, ◌≤◌, ◌∷◌, IfOk, length, take, drop};
ghost use Rattle.journal_records.specs.Records.{HasFirst, HasScanned, IsScan};

use crate::framing::message_length;
use entry_spellings::read_entry;
use mos_fields::NoMemory;
use rundown_log::{Entries, Entry};
use std::alloc::Global;

/// What a file stands for.
#[derive(Drop)]
pub struct Found {
    /// The entries of its whole records.
    pub entries: Entries,
    /// The place of the byte that ends the file; an empty file has none there.
    pub end: usize,
}

/// The bytes behind so many.
fn behind(bytes: &[u8], here: usize) -> &[u8]
    requires { here ≤ length bytes.now }
    ensures { result.now ≡ drop here bytes.now }
{
    &bytes[here..]
}

/// The first so many bytes.
fn front(bytes: &[u8], count: usize) -> &[u8]
    requires { count ≤ length bytes.now }
    ensures { result.now ≡ take count bytes.now }
{
    &bytes[..count]
}

/// The entry of the record whose byte 1 stands in front of these bytes, and how many bytes the record has.
fn record_behind(alloc: Global, rest: &[u8]) -> Result<Option<(Entry, usize)>, NoMemory>
    ensures { IfOk result (λ o. HasFirst (1 ∷ rest.now) o) }
{
    let Some(length) = message_length(rest) else {
        return Ok(None);
    };
    match read_entry(alloc, front(behind(rest, 8), length))? {
        Some(entry) => Ok(Some((entry, 9 + length))),
        None => Ok(None),
    }
}

/// The entry of the record at the front, and how many bytes the record has.
fn first_record(alloc: Global, bytes: &[u8]) -> Result<Option<(Entry, usize)>, NoMemory>
    ensures { IfOk result (λ o. HasFirst bytes.now o) }
{
    match bytes {
        [1, rest @ ..] => record_behind(alloc, rest),
        _ => Ok(None),
    }
}

/// The entries that the bytes of a file stand for. The only error is that memory runs out.
pub fn scan(alloc: Global, bytes: &[u8]) -> Result<Found, NoMemory>
    ensures { IfOk result (λ s. IsScan bytes.now s.entries s.end) }
{
    let mut entries = Entries::new(alloc);
    let mut rest = bytes;
    'record: while let Some((entry, size)) = first_record(alloc, rest)? {
        entries.push(entry)?;
        rest = behind(rest, size);
    }
    Ok(Found {
        entries,
        end: bytes.len() - rest.len(),
    })
}
