//! Writing to the connection, and to those who look on.
ghost use Rattle.std.specs.Prelude.{◌≡◌, ◌≤◌, ◌++◌, IfOk, OnOk, string_bytes};
ghost use Rattle.std.specs.Fmt.{decimal};
ghost use Rattle.edit_runs.specs.Runs.{Sent, Wrote};
ghost use Rattle.edit_runs.specs.Said.{note_text};

use crate::halt::Halt;
use edit_lines::push_bytes;
use line_mistakes::push_line_mistake;
use mos_fields::NoMemory;
use mos_io::{Sink, SinkFault};
use std::alloc::Global;

/// Writes a text that is told, in one piece.
pub fn write_text<K: Sink>(sink: &mut K, text: &[u8]) -> Result<(), Halt>
    ensures wrote { Wrote (K.written sink.old) (K.written sink.new) (K.faults sink.old) (K.faults sink.new) text.now result }
    ensures rises { K.faults sink.old ≤ K.faults sink.new }
{
    match sink.write_piece(text) {
        Ok(()) => Ok(()),
        Err(SinkFault::Failed) => Err(Halt::WriteFault),
        Err(SinkFault::NoMemory) => Err(Halt::NoMemory),
    }
}

/// Writes a message to the connection, in one piece.
pub fn send<K: Sink>(sink: &mut K, bytes: &[u8]) -> Result<(), Halt>
    ensures sent { Sent (K.written sink.old) (K.written sink.new) (K.faults sink.old) (K.faults sink.new) bytes.now result }
    ensures rises { K.faults sink.old ≤ K.faults sink.new }
{
    match sink.write_piece(bytes) {
        Ok(()) => Ok(()),
        Err(SinkFault::Failed) => Err(Halt::Unsent),
        Err(SinkFault::NoMemory) => Err(Halt::NoMemory),
    }
}

// The note of a line that is no edit, behind its number.
fn note_line(alloc: Global, place: u64, line: &[u8]) -> Result<Vec<u8>, NoMemory>
    ensures { IfOk result (λ note. note.items ≡ note_text place line.now) }
{
    let digits = place.to_string(alloc)?;
    let mut note = Vec::new(alloc);
    push_bytes(&mut note, b"line ")?;
    push_bytes(&mut note, digits.as_bytes())?;
    push_bytes(&mut note, b": ")?;
    push_line_mistake(alloc, &mut note, line)?;
    push_bytes(&mut note, b"\n")?;
    Ok(note)
}

/// Notes what is wrong with the line of this number, which is no edit.
pub fn note<K: Sink>(alloc: Global, notes: &mut K, place: u64, line: &[u8]) -> Result<(), Halt>
    ensures wrote { Wrote (K.written notes.old) (K.written notes.new) (K.faults notes.old) (K.faults notes.new) (note_text place line.now) result }
    ensures rises { K.faults notes.old ≤ K.faults notes.new }
{
    match note_line(alloc, place, line) {
        Ok(note) => write_text(notes, note.as_slice()),
        Err(_) => Err(Halt::NoMemory),
    }
}
