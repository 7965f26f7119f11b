//! Giving one message, and telling its answer.
ghost use Rattle.std.specs.Prelude.{◌≡◌, ◌≤◌, List};
ghost use Rattle.mos_codec.specs.Codec.{encoding};
ghost use Rattle.edit_runs.specs.Runs.{IsHearing};
ghost use Rattle.message_runs.specs.Exchanges.{Exchange};
ghost use Rattle.message_runs.specs.Given.{Gives, Going, Sides, sides};
ghost use Rattle.message_runs.specs.Labels.{label_text};

use crate::label::label_of;
use crate::message_end::{MessageEnd, stopped_by};
use edit_runs::{hear, send};
use mos_fields::pair_ok;
use mos_io::{Sink, Source};
use mos_messages::encode;
use mos_values::Envelope;
use port_session::Inlet;
use std::alloc::Global;
use std::sync::Wait;

// Sends a message by its encoding, and tells its answer behind its label.
fn give_bytes<R: Wait, C: Source, D: Sink, K: Sink>(
    rt: &R,
    alloc: Global,
    inlet: &mut Inlet,
    from: &mut C,
    to: &mut D,
    out: &mut K,
    e: &Envelope,
    label: &[u8],
    bytes: &[u8],
) -> Result<bool, MessageEnd>
    requires hearing { IsHearing (C.left from.old) (C.faults from.old) inlet.old }
    requires label { label.now ≡ label_text e.now.message }
    requires bytes { bytes.now ≡ encoding e.now }
    ensures gives { (was : Sides) (exchanges : List Exchange) → Going was (sides (C.left from.old) (C.faults from.old) (D.written to.old) (D.faults to.old) (K.written out.old) (K.faults out.old)) exchanges inlet.old → Gives was (sides (C.left from.old) (C.faults from.old) (D.written to.old) (D.faults to.old) (K.written out.old) (K.faults out.old)) (sides (C.left from.new) (C.faults from.new) (D.written to.new) (D.faults to.new) (K.written out.new) (K.faults out.new)) exchanges e.now inlet.new result }
    ensures hears { C.faults from.old ≤ C.faults from.new }
    ensures sends { D.faults to.old ≤ D.faults to.new }
    ensures shows { K.faults out.old ≤ K.faults out.new }
{
    match send(to, bytes) {
        Err(halt) => Err(stopped_by(halt)),
        Ok(()) => match hear(rt, alloc, inlet, from, out, label, e) {
            Err(halt) => Err(stopped_by(halt)),
            Ok(good) => Ok(good),
        },
    }
}

/// Sends a message, and tells its answer; whether it was the one that was wanted.
pub fn give<R: Wait, C: Source, D: Sink, K: Sink>(
    rt: &R,
    alloc: Global,
    inlet: &mut Inlet,
    from: &mut C,
    to: &mut D,
    out: &mut K,
    e: &Envelope,
) -> Result<bool, MessageEnd>
    requires { IsHearing (C.left from.old) (C.faults from.old) inlet.old }
    ensures gives { (was : Sides) (exchanges : List Exchange) → Going was (sides (C.left from.old) (C.faults from.old) (D.written to.old) (D.faults to.old) (K.written out.old) (K.faults out.old)) exchanges inlet.old → Gives was (sides (C.left from.old) (C.faults from.old) (D.written to.old) (D.faults to.old) (K.written out.old) (K.faults out.old)) (sides (C.left from.new) (C.faults from.new) (D.written to.new) (D.faults to.new) (K.written out.new) (K.faults out.new)) exchanges e.now inlet.new result }
    ensures hears { C.faults from.old ≤ C.faults from.new }
    ensures sends { D.faults to.old ≤ D.faults to.new }
    ensures shows { K.faults out.old ≤ K.faults out.new }
{
    match pair_ok(label_of(alloc, &e.message), encode(alloc, e)) {
        Err(_) => Err(MessageEnd::NoMemory),
        Ok((label, bytes)) => give_bytes(rt, alloc, inlet, from, to, out, e, &label, &bytes),
    }
}
