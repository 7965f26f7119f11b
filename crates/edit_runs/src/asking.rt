//! What is done about one line.
ghost use Rattle.std.specs.Prelude.{◌≡◌, ◌≤◌, ℕ, List, Option};
ghost use Rattle.edit_lines.specs.Asked.{asked_of};
ghost use Rattle.edit_lines.specs.Requests.{IsSent};
ghost use Rattle.edit_lines.specs.declared.request.Names.{Names as NamesOf};
ghost use Rattle.edit_runs.specs.Runs.{Going, Handled, IsHearing, Refuses, Sides, sides};

use crate::counts::Counts;
use crate::hearing::hear;
use crate::status::EditStatus;
use crate::writing::{note, send};
use edit_lines::{Names, Request, request_for};
use mos_fields::let_go;
use mos_io::{Sink, Source};
use mos_values::Envelope;
use port_session::Inlet;
use std::alloc::Global;
use std::sync::Wait;

// Sends the message of a line, and tells its answer.
fn ask<R: Wait, C: Source, D: Sink, K: Sink>(
    rt: &R,
    alloc: Global,
    counts: &mut Counts,
    inlet: &mut Inlet,
    from: &mut C,
    to: &mut D,
    out: &mut K,
    line: &[u8],
    bytes: &[u8],
    asked: &Envelope,
) -> Result<(), EditStatus>
    requires { IsHearing (C.left from.old) (C.faults from.old) inlet.old }
    ensures handled { (names : NamesOf) (lines : List (List ℕ)) (was : Sides) (n : Option (List ℕ)) (h : ℕ) → Going names lines was (sides (C.left from.old) (C.faults from.old) (D.written to.old) (D.faults to.old) (K.written out.old) (K.faults out.old) n h) counts.old inlet.old → IsSent names counts.old.number (asked_of line.now) bytes.now asked.now
        → Handled names lines line.now was (sides (C.left from.new) (C.faults from.new) (D.written to.new) (D.faults to.new) (K.written out.new) (K.faults out.new) n h) counts.new inlet.new result }
    ensures hears { C.faults from.old ≤ C.faults from.new }
    ensures sends { D.faults to.old ≤ D.faults to.new }
    ensures shows { K.faults out.old ≤ K.faults out.new }
{
    match send(to, bytes) {
        Err(halt) => Err(halt.at_line(counts.place)),
        Ok(()) => match hear(rt, alloc, inlet, from, out, line, asked) {
            Err(halt) => Err(halt.at_line(counts.place)),
            Ok(good) => {
                *counts = counts.answered(good);
                Ok(())
            }
        },
    }
}

// Notes what is wrong with a line that is no edit.
fn refuse<E: Sink>(
    alloc: Global,
    counts: &mut Counts,
    notes: &mut E,
    line: &[u8],
) -> Result<(), EditStatus>
    ensures refuses { Refuses line.now counts.old counts.new (E.written notes.old) (E.written notes.new) (E.faults notes.old) (E.faults notes.new) result }
    ensures rises { E.faults notes.old ≤ E.faults notes.new }
{
    match note(alloc, notes, counts.place, line) {
        Ok(()) => {
            *counts = counts.refused();
            Ok(())
        }
        Err(halt) => Err(halt.at_line(counts.place)),
    }
}

/// Does what is to be done about a line.
pub fn handle<R: Wait, C: Source, D: Sink, K: Sink, E: Sink>(
    rt: &R,
    alloc: Global,
    names: &Names,
    counts: &mut Counts,
    inlet: &mut Inlet,
    from: &mut C,
    to: &mut D,
    out: &mut K,
    notes: &mut E,
    line: &[u8],
) -> Result<(), EditStatus>
    requires { IsHearing (C.left from.old) (C.faults from.old) inlet.old }
    ensures handled { (lines : List (List ℕ)) (was : Sides) → Going names.now lines was (sides (C.left from.old) (C.faults from.old) (D.written to.old) (D.faults to.old) (K.written out.old) (K.faults out.old) (E.written notes.old) (E.faults notes.old)) counts.old inlet.old → Handled names.now lines line.now was (sides (C.left from.new) (C.faults from.new) (D.written to.new) (D.faults to.new) (K.written out.new) (K.faults out.new) (E.written notes.new) (E.faults notes.new)) counts.new inlet.new result }
    ensures hears { C.faults from.old ≤ C.faults from.new }
    ensures sends { D.faults to.old ≤ D.faults to.new }
    ensures shows { K.faults out.old ≤ K.faults out.new }
    ensures noted { E.faults notes.old ≤ E.faults notes.new }
{
    match request_for(alloc, names, counts.number, line) {
        Err(_) => Err(EditStatus::NoMemory),
        Ok(Request::Nothing) => {
            *counts = counts.passed();
            Ok(())
        }
        Ok(Request::NoEdit) => refuse(alloc, counts, notes, line),
        Ok(Request::Sends { bytes, asked }) => {
            let answered = ask(
                rt, alloc, counts, inlet, from, to, out, line, &bytes, &asked,
            );
            let_go(asked);
            answered
        }
    }
}
