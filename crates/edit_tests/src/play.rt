//! A run in memory.
use edit_lines::Names;
use edit_runs::{EditStatus, run_edits};
use mos_fields::{FieldFault, Id, NoMemory};
use mos_io::{MemSink, MemSource};
use std::alloc::Global;
use std::sync::Wait;
use std::test::Fail;

/// A run: the lines, the answers that come, and which reads and writes fail.
#[derive(Clone, Copy)]
pub struct Play<'a> {
    pub input: &'a str,
    /// ASCII, each character a code unit; all are there before the first line is read
    pub answers: &'a [&'a str],
    /// how many bytes each read of the input, and of the connection, gives at most
    pub pieces: &'a [usize],
    /// which reads of the input fail
    pub reads: &'a [u64],
    /// which reads of the connection fail
    pub hears: &'a [u64],
    /// which writes to the connection fail
    pub sends: &'a [u64],
    /// which writes of what is told fail
    pub shows: &'a [u64],
    /// which notes fail
    pub notes: &'a [u64],
}

/// These lines and these answers, with nothing that fails.
pub fn plain<'a>(input: &'a str, answers: &'a [&'a str]) -> Play<'a> {
    Play {
        input,
        answers,
        pieces: &[],
        reads: &[],
        hears: &[],
        sends: &[],
        shows: &[],
        notes: &[],
    }
}

/// What a run is to come to.
#[derive(Clone, Copy)]
pub struct Wanted<'a> {
    pub status: EditStatus,
    /// ASCII, each character a code unit
    pub sent: &'a [&'a str],
    pub shown: &'a str,
    pub noted: &'a str,
}

/// Two bytes for each character of these texts.
pub fn wide(alloc: Global, texts: &[&str]) -> Result<Vec<u8>, NoMemory> {
    let mut bytes = Vec::new(alloc);
    for text in texts {
        push_wide(&mut bytes, text)?;
    }
    Ok(bytes)
}

fn push_wide(bytes: &mut Vec<u8>, text: &str) -> Result<(), NoMemory> {
    for byte in text.as_bytes() {
        bytes.extend_from_slice(&[0, *byte])?;
    }
    Ok(())
}

/// A source of these bytes, with so many at each read at most, and with these reads failing.
pub fn source(
    alloc: Global,
    bytes: Vec<u8>,
    pieces: &[usize],
    fails: &[u64],
) -> Result<MemSource, NoMemory> {
    let pieces = Vec::from_slice(alloc, pieces)?;
    let fails = Vec::from_slice(alloc, fails)?;
    Ok(MemSource::new(bytes, pieces, fails))
}

/// A sink with these writes failing.
pub fn sink(alloc: Global, fails: &[u64]) -> Result<MemSink, NoMemory> {
    Ok(MemSink::new(alloc, Vec::from_slice(alloc, fails)?))
}

fn names(alloc: Global) -> Result<Names, FieldFault> {
    let mos = Id::try_new(alloc, &['e'])?;
    let ncs = Id::try_new(alloc, &['n'])?;
    Ok(Names { mos, ncs })
}

// Whether the sinks hold what they are to hold.
fn has_written(
    alloc: Global,
    to: &MemSink,
    out: &MemSink,
    notes: &MemSink,
    wanted: &Wanted<'_>,
) -> Result<bool, NoMemory> {
    let sent = wide(alloc, wanted.sent)?;
    Ok(
        to.bytes() == sent.as_slice()
            && out.bytes() == wanted.shown.as_bytes()
            && notes.bytes() == wanted.noted.as_bytes(),
    )
}

/// Whether the run comes to what is wanted.
pub fn is<R: Wait>(
    rt: &R,
    alloc: Global,
    play: &Play<'_>,
    wanted: &Wanted<'_>,
) -> Result<bool, Fail> {
    let names = names(alloc)?;
    let input = Vec::from_slice(alloc, play.input.as_bytes())?;
    let mut lines = source(alloc, input, play.pieces, play.reads)?;
    let answers = wide(alloc, play.answers)?;
    let mut from = source(alloc, answers, play.pieces, play.hears)?;
    let mut to = sink(alloc, play.sends)?;
    let mut out = sink(alloc, play.shows)?;
    let mut notes = sink(alloc, play.notes)?;
    let status = run_edits(
        rt, alloc, &names, &mut lines, &mut from, &mut to, &mut out, &mut notes,
    );
    Ok(status == wanted.status && has_written(alloc, &to, &out, &notes, wanted)?)
}
