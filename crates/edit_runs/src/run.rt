//! A whole run.
ghost use Rattle.std.specs.Prelude.{◌≡◌, [], true, false};
ghost use Rattle.line_reader.specs.Lines.{HasRoom, Stands};
ghost use Rattle.edit_runs.specs.Runs.{Ends, IsNewInlet, line_front, sides};

use crate::counts::Counts;
use crate::status::EditStatus;
use crate::turns::turn;
use edit_lines::Names;
use line_reader::LineReader;
use mos_fields::let_go;
use mos_io::{Sink, Source};
use port_session::Inlet;
use std::alloc::Global;
use std::sync::Wait;

// So many bytes of a line are held: one more than a line of an edit may have.
const LINE_FRONT: usize = 1001;

// The status of a run that came to the end of the input.
fn finished(counts: Counts) -> EditStatus
    ensures good { counts.good ≡ true → result ≡ EditStatus.Done }
    ensures bad { counts.good ≡ false → result ≡ EditStatus.Refused }
{
    if counts.good {
        EditStatus::Done
    } else {
        EditStatus::Refused
    }
}

// Takes the lines one after another, with a reader at the first line and an inlet that read nothing.
fn run_all<R: Wait, S: Source, C: Source, D: Sink, K: Sink, E: Sink>(
    rt: &R,
    alloc: Global,
    names: &Names,
    source: &mut S,
    reader: &mut LineReader,
    inlet: &mut Inlet,
    from: &mut C,
    to: &mut D,
    out: &mut K,
    notes: &mut E,
) -> EditStatus
    requires room { HasRoom reader.old }
    requires most { reader.old.most ≡ line_front }
    requires begun { Stands (S.left source.old) (S.left source.old) reader.old [] }
    requires inlet { IsNewInlet inlet.old }
    ensures { Ends names.now (S.left source.old) (S.left source.new) (S.faults source.old) (S.faults source.new) (sides (C.left from.old) (C.faults from.old) (D.written to.old) (D.faults to.old) (K.written out.old) (K.faults out.old) (E.written notes.old) (E.faults notes.old)) (sides (C.left from.new) (C.faults from.new) (D.written to.new) (D.faults to.new) (K.written out.new) (K.faults out.new) (E.written notes.new) (E.faults notes.new)) result }
{
    let mut counts = Counts::new();
    for _ in rt.forever() {
        match turn(
            rt,
            alloc,
            names,
            &mut counts,
            source,
            reader,
            inlet,
            from,
            to,
            out,
            notes,
        ) {
            Ok(true) => {}
            Ok(false) => return finished(counts),
            Err(status) => return status,
        }
    }
    unreachable!()
}

// The same, with a reader of its own.
fn run_with<R: Wait, S: Source, C: Source, D: Sink, K: Sink, E: Sink>(
    rt: &R,
    alloc: Global,
    names: &Names,
    source: &mut S,
    inlet: &mut Inlet,
    from: &mut C,
    to: &mut D,
    out: &mut K,
    notes: &mut E,
) -> EditStatus
    requires { IsNewInlet inlet.old }
    ensures { Ends names.now (S.left source.old) (S.left source.new) (S.faults source.old) (S.faults source.new) (sides (C.left from.old) (C.faults from.old) (D.written to.old) (D.faults to.old) (K.written out.old) (K.faults out.old) (E.written notes.old) (E.faults notes.old)) (sides (C.left from.new) (C.faults from.new) (D.written to.new) (D.faults to.new) (K.written out.new) (K.faults out.new) (E.written notes.new) (E.faults notes.new)) result }
{
    match LineReader::new(alloc, LINE_FRONT) {
        Err(_) => EditStatus::NoMemory,
        Ok(mut reader) => {
            let status = run_all(
                rt,
                alloc,
                names,
                source,
                &mut reader,
                inlet,
                from,
                to,
                out,
                notes,
            );
            let_go(reader);
            status
        }
    }
}

/// Takes the lines of `source`, one after another, to its end. What stands behind the last line feed is a line too.
///
/// A line that is an edit or a list is sent to `to` as one message, in one write; the messages are numbered from 1, and their
/// messageIDs are the numbers. Then the answer is read from `from`, and told to `out`, before the next line is taken; one that isn't
/// for the message that was sent, by its messageID or its roID, is told as another message. Of a line that is neither its number,
/// from 1, and its mistake are noted in `notes`, and one that is empty or begins with `#` is passed over. Of a line 1,001 bytes
/// count; one of more than 1,000 is no edit.
///
/// `Done` and `Refused` come where the input was read to its end, `Done` where each line was passed over or had the answer that
/// it wanted. `ReadFault` comes only where the count of faults of `source` rose; `WriteFault` where that of `out` or `notes` rose.
/// `Unsent` comes where the count of faults of `to` rose, `Unheard` where a read of `from` failed before an answer came, and
/// `Unanswered` where `from` ended before that, or gave what is no message; each with the number of the line at which the run
/// stopped. `Usage` and `Lost` never come. The call waits where the connection does.
pub fn run_edits<R: Wait, S: Source, C: Source, D: Sink, K: Sink, E: Sink>(
    rt: &R,
    alloc: Global,
    names: &Names,
    source: &mut S,
    from: &mut C,
    to: &mut D,
    out: &mut K,
    notes: &mut E,
) -> EditStatus
    ensures { Ends names.now (S.left source.old) (S.left source.new) (S.faults source.old) (S.faults source.new) (sides (C.left from.old) (C.faults from.old) (D.written to.old) (D.faults to.old) (K.written out.old) (K.faults out.old) (E.written notes.old) (E.faults notes.old)) (sides (C.left from.new) (C.faults from.new) (D.written to.new) (D.faults to.new) (K.written out.new) (K.faults out.new) (E.written notes.new) (E.faults notes.new)) result }
{
    let mut inlet = Inlet::new(alloc, u64::MAX);
    let status = run_with(rt, alloc, names, source, &mut inlet, from, to, out, notes);
    let_go(inlet);
    status
}
