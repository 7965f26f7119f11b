//! A whole run.
ghost use Rattle.std.specs.Prelude.{◌≡◌};
ghost use Rattle.edit_runs.specs.Runs.{IsNewInlet};
ghost use Rattle.message_runs.specs.Given.{Ends, sides};

use crate::message_end::MessageEnd;
use crate::turns::turn;
use mos_fields::let_go;
use mos_io::{Sink, Source};
use port_session::Inlet;
use std::alloc::Global;
use std::sync::Wait;

// Gives the messages one after another, with two inlets that read nothing.
fn run_all<R: Wait, S: Source, C: Source, D: Sink, K: Sink>(
    rt: &R,
    alloc: Global,
    source: &mut S,
    stream: &mut Inlet,
    inlet: &mut Inlet,
    from: &mut C,
    to: &mut D,
    out: &mut K,
) -> MessageEnd
    requires stream { IsNewInlet stream.old }
    requires inlet { IsNewInlet inlet.old }
    ensures { Ends (S.left source.old) (S.faults source.old) (S.left source.new) (S.faults source.new) (sides (C.left from.old) (C.faults from.old) (D.written to.old) (D.faults to.old) (K.written out.old) (K.faults out.old)) (sides (C.left from.new) (C.faults from.new) (D.written to.new) (D.faults to.new) (K.written out.new) (K.faults out.new)) result }
{
    let mut good = true;
    for _ in rt.forever() {
        match turn(rt, alloc, &mut good, source, stream, inlet, from, to, out) {
            Ok(()) => {}
            Err(end) => return end,
        }
    }
    unreachable!()
}

/// Gives the messages of the stream of `source`, one after another, to its end.
///
/// Each is sent to `to` as it stands in the stream, with the names and the messageID that it has there, in its canonical encoding
/// and in one write. Then the answer is read from `from`, and told to `out` behind the message's label, before the next message is
/// looked at. A stream is messages one after another, in UCS-2 with the high byte first, with white space and U+FEFF between.
///
/// `Done` and `Refused` come where the stream was read to its end, `Done` where each message had the answer that it wanted:
/// a roReq a roList, roReqAll a roListAll, and any other a roAck with the text `OK`. `Rejected` comes where the stream is rejected,
/// or ends inside a message, or where 2^64 - 1 bytes of it were read; the messages before that were given and answered.
/// An answer that isn't for its message, by its messageID or its roID, is another one. `ReadFault` comes only where the count of
/// faults of `source` rose; `Unsent` where that of `to` rose, `Unheard` where a read of `from` failed before an answer came, and
/// `Unanswered` where `from` ended before that or gave what is no message; `WriteFault` where that of `out` rose. The call waits
/// where the connection does.
pub fn run_messages<R: Wait, S: Source, C: Source, D: Sink, K: Sink>(
    rt: &R,
    alloc: Global,
    source: &mut S,
    from: &mut C,
    to: &mut D,
    out: &mut K,
) -> MessageEnd
    ensures { Ends (S.left source.old) (S.faults source.old) (S.left source.new) (S.faults source.new) (sides (C.left from.old) (C.faults from.old) (D.written to.old) (D.faults to.old) (K.written out.old) (K.faults out.old)) (sides (C.left from.new) (C.faults from.new) (D.written to.new) (D.faults to.new) (K.written out.new) (K.faults out.new)) result }
{
    let mut stream = Inlet::new(alloc, u64::MAX);
    let mut inlet = Inlet::new(alloc, u64::MAX);
    let end = run_all(rt, alloc, source, &mut stream, &mut inlet, from, to, out);
    let_go(stream);
    let_go(inlet);
    end
}
