//! The lines of the input, one after another.
ghost use Rattle.std.specs.Prelude.{◌≡◌, ◌≤◌, ℕ, true, false, List, Option, IfOk};
ghost use Rattle.line_reader.specs.Lines.{HasLast, HasLine, HasRoom, Moves, pending};
ghost use Rattle.edit_runs.specs.Runs.{Going, IsHearing, Sides, Talking, Taken, TakenLast, Turned, fronts, sides};

use crate::asking::handle;
use crate::counts::Counts;
use crate::status::EditStatus;
use edit_lines::Names;
use line_reader::{LineFault, LineReader, Step};
use mos_io::{Sink, Source};
use port_session::Inlet;
use std::alloc::Global;
use std::sync::Wait;

// Does what is to be done about a line that is ended by a line feed, and begins the next one.
fn take_line<R: Wait, C: Source, D: Sink, K: Sink, E: Sink>(
    rt: &R,
    alloc: Global,
    names: &Names,
    counts: &mut Counts,
    reader: &mut LineReader,
    inlet: &mut Inlet,
    from: &mut C,
    to: &mut D,
    out: &mut K,
    notes: &mut E,
) -> Result<bool, EditStatus>
    requires hearing { IsHearing (C.left from.old) (C.faults from.old) inlet.old }
    requires room { HasRoom reader.old }
    ensures taken { (l : Option (List ℕ)) (l' : Option (List ℕ)) (lines : List (List ℕ)) (was : Sides) → HasLine l l' reader.old lines → Going names.now (fronts reader.old.most lines) was (sides (C.left from.old) (C.faults from.old) (D.written to.old) (D.faults to.old) (K.written out.old) (K.faults out.old) (E.written notes.old) (E.faults notes.old)) counts.old inlet.old → Taken names.now l l' reader.new was (sides (C.left from.new) (C.faults from.new) (D.written to.new) (D.faults to.new) (K.written out.new) (K.faults out.new) (E.written notes.new) (E.faults notes.new)) counts.new inlet.new result }
    ensures kept { pending reader.new ≡ pending reader.old }
    ensures most { reader.new.most ≡ reader.old.most }
    ensures room { HasRoom reader.new }
    ensures hears { C.faults from.old ≤ C.faults from.new }
    ensures sends { D.faults to.old ≤ D.faults to.new }
    ensures shows { K.faults out.old ≤ K.faults out.new }
    ensures noted { E.faults notes.old ≤ E.faults notes.new }
{
    match handle(
        rt,
        alloc,
        names,
        counts,
        inlet,
        from,
        to,
        out,
        notes,
        reader.line(),
    ) {
        Ok(()) => {
            reader.clear();
            Ok(true)
        }
        Err(status) => Err(status),
    }
}

// Does what is to be done about what stands behind the last line feed.
fn take_last<R: Wait, C: Source, D: Sink, K: Sink, E: Sink>(
    rt: &R,
    alloc: Global,
    names: &Names,
    counts: &mut Counts,
    reader: &LineReader,
    inlet: &mut Inlet,
    from: &mut C,
    to: &mut D,
    out: &mut K,
    notes: &mut E,
) -> Result<bool, EditStatus>
    requires { IsHearing (C.left from.old) (C.faults from.old) inlet.old }
    ensures taken { (l : Option (List ℕ)) (l' : Option (List ℕ)) (lines : List (List ℕ)) (was : Sides) → HasLast l l' reader.now lines → Going names.now (fronts reader.now.most lines) was (sides (C.left from.old) (C.faults from.old) (D.written to.old) (D.faults to.old) (K.written out.old) (K.faults out.old) (E.written notes.old) (E.faults notes.old)) counts.old inlet.old → TakenLast names.now l l' reader.now was (sides (C.left from.new) (C.faults from.new) (D.written to.new) (D.faults to.new) (K.written out.new) (K.faults out.new) (E.written notes.new) (E.faults notes.new)) counts.new inlet.new result }
    ensures last { IfOk result (λ more. more ≡ false) }
    ensures hears { C.faults from.old ≤ C.faults from.new }
    ensures sends { D.faults to.old ≤ D.faults to.new }
    ensures shows { K.faults out.old ≤ K.faults out.new }
    ensures noted { E.faults notes.old ≤ E.faults notes.new }
{
    let line = reader.line();
    match handle(rt, alloc, names, counts, inlet, from, to, out, notes, line) {
        Ok(()) => Ok(false),
        Err(status) => Err(status),
    }
}

/// One step of the input's reader, and what is to be done about the line that it ends, if it ends one. Whether there is more
/// of the input; where there is, bytes of it were gone over.
pub fn turn<R: Wait, S: Source, C: Source, D: Sink, K: Sink, E: Sink>(
    rt: &R,
    alloc: Global,
    names: &Names,
    counts: &mut Counts,
    source: &mut S,
    reader: &mut LineReader,
    inlet: &mut Inlet,
    from: &mut C,
    to: &mut D,
    out: &mut K,
    notes: &mut E,
) -> Result<bool, EditStatus>
    requires hearing { IsHearing (C.left from.old) (C.faults from.old) inlet.old }
    requires room { HasRoom reader.old }
    ensures turned { (l : Option (List ℕ)) (was : Sides) → Talking names.now l (S.left source.old) reader.old was (sides (C.left from.old) (C.faults from.old) (D.written to.old) (D.faults to.old) (K.written out.old) (K.faults out.old) (E.written notes.old) (E.faults notes.old)) counts.old inlet.old → Turned names.now l (S.left source.new) (S.faults source.old) (S.faults source.new) reader.new was (sides (C.left from.new) (C.faults from.new) (D.written to.new) (D.faults to.new) (K.written out.new) (K.faults out.new) (E.written notes.new) (E.faults notes.new)) counts.new inlet.new result }
    ensures goes_on { IfOk result (λ more. more ≡ true → Moves (pending reader.old) (pending reader.new)) }
    ensures most { reader.new.most ≡ reader.old.most }
    ensures room { HasRoom reader.new }
    ensures reads { S.faults source.old ≤ S.faults source.new }
{
    match reader.advance(source) {
        Ok(Step::More) => Ok(true),
        Ok(Step::Line) => take_line(
            rt, alloc, names, counts, reader, inlet, from, to, out, notes,
        ),
        Ok(Step::Ended) => take_last(
            rt, alloc, names, counts, reader, inlet, from, to, out, notes,
        ),
        Err(LineFault::ReadFault) => Err(EditStatus::ReadFault),
        Err(LineFault::NoMemory) => Err(EditStatus::NoMemory),
    }
}
