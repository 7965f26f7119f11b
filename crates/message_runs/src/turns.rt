//! The messages of the stream, one after another.
ghost use Rattle.std.specs.Prelude.{◌≡◌, ◌∷◌, ◌++◌, ◌&&◌, [], ℕ, List, Option};
ghost use Rattle.port_session.specs.Reading.{InletReads};
ghost use Rattle.port_session.specs.declared.inlet.Inlet.{Inlet as InletOf};
ghost use Rattle.edit_runs.specs.Runs.{IsHearing};
ghost use Rattle.message_runs.specs.Exchanges.{Exchange, are_good, messages_of};
ghost use Rattle.message_runs.specs.Given.{Given, Giving, Going, Sides, Turned, sides};

use crate::giving::give;
use crate::message_end::{MessageEnd, ended_by};
use mos_fields::let_go;
use mos_io::{Sink, Source};
use mos_values::Envelope;
use port_session::{Inlet, Next};
use std::alloc::Global;
use std::sync::Wait;

// Whether both hold.
fn both(first: bool, second: bool) -> bool
    ensures { result ≡ (first && second) }
{
    first && second
}

// Gives a message of the stream, and lets it go.
fn give_next<R: Wait, C: Source, D: Sink, K: Sink>(
    rt: &R,
    alloc: Global,
    good: &mut bool,
    inlet: &mut Inlet,
    from: &mut C,
    to: &mut D,
    out: &mut K,
    e: Envelope,
) -> Result<(), MessageEnd>
    requires { IsHearing (C.left from.old) (C.faults from.old) inlet.old }
    ensures { (l : Option (List ℕ)) (f : ℕ) (l' : Option (List ℕ)) (f' : ℕ) (stream : InletOf) (was : Sides) (exchanges : List Exchange) → InletReads l f l' f' stream (messages_of exchanges ++ e ∷ []) → good.old ≡ are_good exchanges → Going was (sides (C.left from.old) (C.faults from.old) (D.written to.old) (D.faults to.old) (K.written out.old) (K.faults out.old)) exchanges inlet.old
        → Given l f l' f' was (sides (C.left from.new) (C.faults from.new) (D.written to.new) (D.faults to.new) (K.written out.new) (K.faults out.new)) good.new stream inlet.new result }
{
    let given = give(rt, alloc, inlet, from, to, out, &e);
    let_go(e);
    match given {
        Ok(answer_is_good) => {
            *good = both(*good, answer_is_good);
            Ok(())
        }
        Err(end) => Err(end),
    }
}

/// One step of reading the stream, and what is to be done about the message that it hands out, if it hands out one. An error is
/// the end of the run.
pub fn turn<R: Wait, S: Source, C: Source, D: Sink, K: Sink>(
    rt: &R,
    alloc: Global,
    good: &mut bool,
    source: &mut S,
    stream: &mut Inlet,
    inlet: &mut Inlet,
    from: &mut C,
    to: &mut D,
    out: &mut K,
) -> Result<(), MessageEnd>
    requires reading { IsHearing (S.left source.old) (S.faults source.old) stream.old }
    requires hearing { IsHearing (C.left from.old) (C.faults from.old) inlet.old }
    ensures { (l : Option (List ℕ)) (f : ℕ) (was : Sides) → Giving l f (S.left source.old) (S.faults source.old) was (sides (C.left from.old) (C.faults from.old) (D.written to.old) (D.faults to.old) (K.written out.old) (K.faults out.old)) good.old stream.old inlet.old
        → Turned l f (S.left source.new) (S.faults source.new) was (sides (C.left from.new) (C.faults from.new) (D.written to.new) (D.faults to.new) (K.written out.new) (K.faults out.new)) good.new stream.new inlet.new result }
{
    match stream.advance(source) {
        Next::More => Ok(()),
        Next::Message(e) => give_next(rt, alloc, good, inlet, from, to, out, e),
        Next::Over(end) => Err(ended_by(*good, stream.count / 2, end)),
    }
}
