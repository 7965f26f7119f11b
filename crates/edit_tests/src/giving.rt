//! A run of whole messages in memory.
use crate::play::{sink, source, wide};
use message_runs::{MessageEnd, run_messages};
use mos_fields::NoMemory;
use mos_io::{MemSink, MemSource};
use std::alloc::Global;
use std::sync::Wait;
use std::test::Fail;

/// A run: the file, the answers that come, and which reads and writes fail.
#[derive(Clone, Copy)]
pub struct Giving<'a> {
    /// the bytes in front
    pub front: &'a [u8],
    /// ASCII, each character a code unit
    pub file: &'a [&'a str],
    /// the bytes behind
    pub behind: &'a [u8],
    /// ASCII, each character a code unit; all are there before the first message is read
    pub answers: &'a [&'a str],
    /// how many bytes each read of the file gives at most
    pub pieces: &'a [usize],
    /// how many bytes each read of the connection gives at most
    pub hearings: &'a [usize],
    /// which reads of the file fail
    pub reads: &'a [u64],
    /// which reads of the connection fail
    pub hears: &'a [u64],
    /// which writes to the connection fail
    pub sends: &'a [u64],
    /// which writes of what is told fail
    pub shows: &'a [u64],
}

/// This file and these answers, with nothing that fails.
pub fn unfailing<'a>(file: &'a [&'a str], answers: &'a [&'a str]) -> Giving<'a> {
    Giving {
        front: &[],
        file,
        behind: &[],
        answers,
        pieces: &[],
        hearings: &[],
        reads: &[],
        hears: &[],
        sends: &[],
        shows: &[],
    }
}

/// What a run is to come to.
#[derive(Clone, Copy)]
pub struct Given<'a> {
    pub end: MessageEnd,
    /// ASCII, each character a code unit
    pub sent: &'a [&'a str],
    pub shown: &'a str,
}

// The bytes of the file.
fn file_bytes(alloc: Global, giving: &Giving<'_>) -> Result<Vec<u8>, NoMemory> {
    let mut bytes = Vec::from_slice(alloc, giving.front)?;
    let middle = wide(alloc, giving.file)?;
    bytes.extend_from_slice(middle.as_slice())?;
    bytes.extend_from_slice(giving.behind)?;
    Ok(bytes)
}

// The file.
fn file_of(alloc: Global, giving: &Giving<'_>) -> Result<MemSource, NoMemory> {
    let bytes = file_bytes(alloc, giving)?;
    source(alloc, bytes, giving.pieces, giving.reads)
}

// What the connection gives.
fn connection_of(alloc: Global, giving: &Giving<'_>) -> Result<MemSource, NoMemory> {
    let bytes = wide(alloc, giving.answers)?;
    source(alloc, bytes, giving.hearings, giving.hears)
}

// Whether the sinks hold what they are to hold.
fn has_written(
    alloc: Global,
    to: &MemSink,
    out: &MemSink,
    given: &Given<'_>,
) -> Result<bool, NoMemory> {
    let sent = wide(alloc, given.sent)?;
    Ok(to.bytes() == sent.as_slice() && out.bytes() == given.shown.as_bytes())
}

/// Whether the run comes to this.
pub fn gives<R: Wait>(
    rt: &R,
    alloc: Global,
    giving: &Giving<'_>,
    given: &Given<'_>,
) -> Result<bool, Fail> {
    let mut file = file_of(alloc, giving)?;
    let mut from = connection_of(alloc, giving)?;
    let mut to = sink(alloc, giving.sends)?;
    let mut out = sink(alloc, giving.shows)?;
    let end = run_messages(rt, alloc, &mut file, &mut from, &mut to, &mut out);
    Ok(end == given.end && has_written(alloc, &to, &out, given)?)
}
