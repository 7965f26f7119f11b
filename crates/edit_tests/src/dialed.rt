//! The program's runs, over a connection in memory that a dialer opens.
ghost use Rattle.std.specs.Prelude.{◌≤◌};
ghost use Rattle.mos_io.specs.Counts.{Rose};

use crate::play::{sink, source, wide};
use edit_program::{run_editor, run_file};
use edit_runs::EditStatus;
use message_runs::MessageEnd;
use mos_fields::{NoMemory, pair_ok};
use mos_io::{MemSource, Sink, SinkFault};
use port_events::Side;
use port_links::{Link, MemDialer};
use std::alloc::Global;
use std::collections::VecDeque;
use std::sync::atomic::{AtomicU64, Ordering};
use std::sync::{Arc, Wait};

/// How many bytes a connection took.
pub type Taken = Arc<AtomicU64>;

/// Takes the bytes that it is to be sent, piece by piece, and fails at a piece of other bytes.
#[derive(Drop)]
pub struct Expecting {
    wanted: Vec<u8>,
    taken: Taken,
    faults: u64,
}

/// The dialer of a test.
pub type TestDialer = MemDialer<MemSource, Expecting>;

fn count_one(count: &mut u64)
    ensures rose { Rose count.old count.new }
    ensures rises { count.old ≤ count.new }
{
    *count = count.saturating_add(1);
}

// Whether these bytes stand here in the others.
fn stands(wanted: &[u8], at: usize, piece: &[u8]) -> bool {
    at <= wanted.len() && wanted[at..].starts_with(piece)
}

impl Sink for Expecting {
    ghost use Rattle.std.specs.Prelude.{None};

    ghost written = { λ _. None };

    ghost faults = { λ s. s.faults };

    fn write_piece(&mut self, piece: &[u8]) -> Result<(), SinkFault> {
        let at = self.taken.load(Ordering::SeqCst);
        if stands(self.wanted.as_slice(), at as usize, piece) {
            let _before = self.taken.fetch_add(piece.len() as u64, Ordering::SeqCst);
            return Ok(());
        }
        count_one(&mut self.faults);
        Err(SinkFault::Failed)
    }
}

// No bytes so far.
fn nothing_taken(alloc: Global) -> Result<Taken, NoMemory> {
    match Arc::new(alloc, AtomicU64::new(0)) {
        Ok(taken) => Ok(taken),
        Err(_) => Err(NoMemory),
    }
}

// The same count again.
fn shared(taken: &Taken) -> Result<Taken, NoMemory> {
    match Arc::try_clone(taken) {
        Ok(taken) => Ok(taken),
        Err(_) => Err(NoMemory),
    }
}

/// What the program is run on: a connection, which is opened once, and the dials that fail.
#[derive(Clone, Copy)]
pub struct Line<'a> {
    /// the messages that the connection takes; ASCII, each character a code unit
    pub sent: &'a [&'a str],
    /// the answers that it gives; ASCII, each character a code unit
    pub answers: &'a [&'a str],
    /// which dials fail
    pub fails: &'a [u64],
}

// The bytes of the messages, as a sink that expects them.
fn sink_of(alloc: Global, sent: &[&str], taken: &Taken) -> Result<Expecting, NoMemory> {
    let (wanted, taken) = pair_ok(wide(alloc, sent), shared(taken))?;
    Ok(Expecting {
        wanted,
        taken,
        faults: 0,
    })
}

// Messages, as a source.
fn messages_of(alloc: Global, messages: &[&str]) -> Result<MemSource, NoMemory> {
    source(alloc, wide(alloc, messages)?, &[], &[])
}

// The connection, of the number 7.
fn link(
    alloc: Global,
    line: &Line<'_>,
    taken: &Taken,
) -> Result<Link<MemSource, Expecting>, NoMemory> {
    let (source, sink) = pair_ok(
        messages_of(alloc, line.answers),
        sink_of(alloc, line.sent, taken),
    )?;
    Ok(Link {
        number: 7,
        side: Side::Editor,
        source,
        sink,
    })
}

// The dialer that opens it.
fn dialer(alloc: Global, line: &Line<'_>, taken: &Taken) -> Result<TestDialer, NoMemory> {
    let (link, fails) = pair_ok(link(alloc, line, taken), list_of(alloc, line.fails))?;
    let mut links = VecDeque::new(alloc);
    match links.push_back(link) {
        Ok(()) => Ok(MemDialer::new(alloc, links, fails)),
        Err(_) => Err(NoMemory),
    }
}

fn list_of(alloc: Global, numbers: &[u64]) -> Result<Vec<u64>, NoMemory> {
    Ok(Vec::from_slice(alloc, numbers)?)
}

// Lines, as a source.
fn input(alloc: Global, bytes: &[u8]) -> Result<MemSource, NoMemory> {
    source(alloc, Vec::from_slice(alloc, bytes)?, &[], &[])
}

/// The words between the spaces of a text. An empty one has none.
pub fn words_of(alloc: Global, text: &str) -> Result<Vec<String>, NoMemory> {
    let mut words = Vec::new(alloc);
    if text.is_empty() {
        return Ok(words);
    }
    for word in text.split(' ') {
        let word = String::from_str(alloc, word)?;
        if words.push(word).is_err() {
            return Err(NoMemory);
        }
    }
    Ok(words)
}

/// Runs of lines with the words of each row, and what each of them comes to. Nothing is noted.
#[derive(Clone, Copy)]
pub struct Turn<'a> {
    pub rows: &'a str,
    pub status: EditStatus,
    pub shown: &'a str,
}

/// Runs of a file with the words of each row, and what each of them comes to.
#[derive(Clone, Copy)]
pub struct FileTurn<'a> {
    pub rows: &'a str,
    pub end: Result<MessageEnd, EditStatus>,
    pub shown: &'a str,
}

// Whether a run of lines with these words comes to this.
fn edits<R: AllocGlobal + Wait>(
    rt: &R,
    words: &[String],
    dialer: &mut TestDialer,
    lines: &mut MemSource,
    turn: &Turn<'_>,
) -> Result<bool, NoMemory> {
    let (mut out, mut notes) = pair_ok(sink(rt.alloc(), &[]), sink(rt.alloc(), &[]))?;
    let status = run_editor(rt, words, dialer, lines, &mut out, &mut notes);
    Ok(status == turn.status && out.bytes() == turn.shown.as_bytes() && notes.bytes().is_empty())
}

// Whether a run of a file with these words comes to this.
fn gives<R: AllocGlobal + Wait>(
    rt: &R,
    words: &[String],
    dialer: &mut TestDialer,
    file: &mut MemSource,
    turn: &FileTurn<'_>,
) -> Result<bool, NoMemory> {
    let mut out = sink(rt.alloc(), &[])?;
    let end = run_file(rt, words, dialer, file, &mut out);
    Ok(end == turn.end && out.bytes() == turn.shown.as_bytes())
}

// Whether the run with each row comes to this.
fn edits_each<R: AllocGlobal + Wait>(
    rt: &R,
    dialer: &mut TestDialer,
    lines: &mut MemSource,
    turn: &Turn<'_>,
) -> Result<bool, NoMemory> {
    for row in turn.rows.split('\n') {
        let words = words_of(rt.alloc(), row)?;
        if !edits(rt, &words, dialer, lines, turn)? {
            return Ok(false);
        }
    }
    Ok(true)
}

fn gives_each<R: AllocGlobal + Wait>(
    rt: &R,
    dialer: &mut TestDialer,
    file: &mut MemSource,
    turn: &FileTurn<'_>,
) -> Result<bool, NoMemory> {
    for row in turn.rows.split('\n') {
        let words = words_of(rt.alloc(), row)?;
        if !gives(rt, &words, dialer, file, turn)? {
            return Ok(false);
        }
    }
    Ok(true)
}

// Whether all these runs, one behind the other, come to this.
fn edits_all<R: AllocGlobal + Wait>(
    rt: &R,
    dialer: &mut TestDialer,
    lines: &mut MemSource,
    turns: &[Turn<'_>],
) -> Result<bool, NoMemory> {
    for turn in turns {
        if !edits_each(rt, dialer, lines, turn)? {
            return Ok(false);
        }
    }
    Ok(true)
}

fn gives_all<R: AllocGlobal + Wait>(
    rt: &R,
    dialer: &mut TestDialer,
    file: &mut MemSource,
    turns: &[FileTurn<'_>],
) -> Result<bool, NoMemory> {
    for turn in turns {
        if !gives_each(rt, dialer, file, turn)? {
            return Ok(false);
        }
    }
    Ok(true)
}

// Whether the connection was opened, and took all its messages.
fn is_used(
    alloc: Global,
    line: &Line<'_>,
    dialer: &TestDialer,
    taken: &Taken,
) -> Result<bool, NoMemory> {
    let bytes = wide(alloc, line.sent)?;
    Ok(dialer.opened() == [7].as_slice() && taken.load(Ordering::SeqCst) == bytes.len() as u64)
}

/// Whether runs over the same lines, with the same dialer, come to this, one behind the other, and use the connection.
pub fn edits_lines<R: AllocGlobal + Wait>(
    rt: &R,
    line: &Line<'_>,
    lines: &str,
    turns: &[Turn<'_>],
) -> Result<bool, NoMemory> {
    let taken = nothing_taken(rt.alloc())?;
    let (mut dialer, mut input) = pair_ok(
        dialer(rt.alloc(), line, &taken),
        input(rt.alloc(), lines.as_bytes()),
    )?;
    let ran = edits_all(rt, &mut dialer, &mut input, turns)?;
    Ok(ran && is_used(rt.alloc(), line, &dialer, &taken)?)
}

/// Whether runs over the same file, with the same dialer, come to this, one behind the other, and use the connection.
pub fn gives_file<R: AllocGlobal + Wait>(
    rt: &R,
    line: &Line<'_>,
    file: &[&str],
    turns: &[FileTurn<'_>],
) -> Result<bool, NoMemory> {
    let taken = nothing_taken(rt.alloc())?;
    let (mut dialer, mut input) = pair_ok(
        dialer(rt.alloc(), line, &taken),
        messages_of(rt.alloc(), file),
    )?;
    let ran = gives_all(rt, &mut dialer, &mut input, turns)?;
    Ok(ran && is_used(rt.alloc(), line, &dialer, &taken)?)
}
