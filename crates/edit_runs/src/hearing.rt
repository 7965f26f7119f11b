//! Hearing the answer to a message, and telling it.
ghost use Rattle.std.specs.Prelude.{◌≡◌, ◌≤◌, ℕ, List, Option};
ghost use Rattle.mos_values.specs.declared.message.Envelope.{Envelope as EnvelopeOf};
ghost use Rattle.port_session.specs.Reading.{InletReads};
ghost use Rattle.edit_lines.specs.Answers.{answer_text as answer_text_of, is_wanted as is_wanted_of};
ghost use Rattle.edit_runs.specs.Runs.{Heard, HearsTold, IsHearing, Showed};

use crate::halt::{Halt, lost_by};
use crate::writing::write_text;
use edit_lines::{answer_text, is_wanted};
use mos_fields::let_go;
use mos_io::{Sink, Source};
use mos_values::Envelope;
use port_session::{End, Inlet, Next};
use std::alloc::Global;
use std::sync::Wait;

// The next message of the connection.
fn next_answer<R: Wait, C: Source>(rt: &R, inlet: &mut Inlet, from: &mut C) -> Result<Envelope, End>
    requires { IsHearing (C.left from.old) (C.faults from.old) inlet.old }
    ensures heard { (l : Option (List ℕ)) (f : ℕ) (given : List EnvelopeOf) → InletReads l f (C.left from.old) (C.faults from.old) inlet.old given → Heard l f (C.left from.new) (C.faults from.new) inlet.new given result }
    ensures rises { C.faults from.old ≤ C.faults from.new }
{
    for _ in rt.forever() {
        match inlet.advance(from) {
            Next::More => {}
            Next::Message(e) => return Ok(e),
            Next::Over(end) => return Err(end),
        }
    }
    unreachable!()
}

// Tells an answer; whether it was the one that was wanted.
fn show<K: Sink>(
    alloc: Global,
    out: &mut K,
    line: &[u8],
    asked: &Envelope,
    answer: &Envelope,
) -> Result<bool, Halt>
    ensures showed { Showed (answer_text_of asked.now line.now answer.now) (is_wanted_of asked.now answer.now) (K.written out.old) (K.written out.new) (K.faults out.old) (K.faults out.new) result }
    ensures rises { K.faults out.old ≤ K.faults out.new }
{
    match answer_text(alloc, line, asked, answer) {
        Ok(text) => match write_text(out, text.as_slice()) {
            Ok(()) => Ok(is_wanted(asked, answer)),
            Err(status) => Err(status),
        },
        Err(_) => Err(Halt::NoMemory),
    }
}

// Tells an answer, and lets it go.
fn show_and_leave<K: Sink>(
    alloc: Global,
    out: &mut K,
    line: &[u8],
    asked: &Envelope,
    answer: Envelope,
) -> Result<bool, Halt>
    ensures showed { Showed (answer_text_of asked.now line.now answer) (is_wanted_of asked.now answer) (K.written out.old) (K.written out.new) (K.faults out.old) (K.faults out.new) result }
    ensures rises { K.faults out.old ≤ K.faults out.new }
{
    let showed = show(alloc, out, line, asked, &answer);
    let_go(answer);
    showed
}

/// Waits for the answer to a message, `asked`, and tells it; whether it was the one that was wanted.
pub fn hear<R: Wait, C: Source, K: Sink>(
    rt: &R,
    alloc: Global,
    inlet: &mut Inlet,
    from: &mut C,
    out: &mut K,
    line: &[u8],
    asked: &Envelope,
) -> Result<bool, Halt>
    requires { IsHearing (C.left from.old) (C.faults from.old) inlet.old }
    ensures told { (l : Option (List ℕ)) (f : ℕ) (given : List EnvelopeOf) → InletReads l f (C.left from.old) (C.faults from.old) inlet.old given → HearsTold l f (C.left from.new) (C.faults from.new) inlet.new given line.now asked.now (K.written out.old) (K.written out.new) (K.faults out.old) (K.faults out.new) result }
    ensures hears { C.faults from.old ≤ C.faults from.new }
    ensures shows { K.faults out.old ≤ K.faults out.new }
{
    match next_answer(rt, inlet, from) {
        Ok(answer) => show_and_leave(alloc, out, line, asked, answer),
        Err(end) => Err(lost_by(end)),
    }
}
