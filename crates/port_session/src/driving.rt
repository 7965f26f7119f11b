//! A connection that this end opened.
ghost use Rattle.std.specs.Prelude.{◌≡◌, List};
ghost use Rattle.port_events.specs.declared.answer.PortAnswer.{PortAnswer as PortAnswerOf};
ghost use Rattle.port_events.specs.declared.event.PortEvent.{PortEvent as PortEventOf};
ghost use Rattle.shared_machine.specs.Passes.{IsPassOf};
ghost use Rattle.shared_machine.specs.declared.entry.Entry.{Entry};
ghost use Rattle.port_session.specs.Driven.{Driven, Driving, Opened, Reach, Step, reach};
ghost use Rattle.port_session.specs.declared.stage.Stage.TheVariants.{Begins};

use crate::end::End;
use crate::inlet::{Inlet, Next};
use crate::numbering::{next_number, write_own};
use crate::port::Port;
use crate::stage::{At, Stage, after_pause};
use crate::telling::tell;
use crate::turns::{answered, beaten, dialed, next};
use mos_fields::let_go;
use mos_io::{Clock, Pacer, Sink, Source};
use port_events::{PortAnswer, PortEvent, What};
use shared_machine::{Hub, Machine, Pass, StepRelation};
use std::alloc::Global;
use std::sync::Wait;

// One thing is done, or there is one read.
fn step<
    M: StepRelation<Event = PortEvent, Answer = PortAnswer> + Machine<D>,
    D: Drop,
    S: Source,
    K: Sink,
    P: Pacer,
    C: Clock,
    R: Wait,
>(
    rt: &R,
    alloc: Global,
    hub: &Hub<M, D>,
    pass: &mut Pass<M, D>,
    port: &Port,
    source: &mut S,
    sink: &mut K,
    pacer: &mut P,
    clock: &mut C,
    inlet: &mut Inlet,
    at: At,
) -> Result<At, End>
    requires pass { IsPassOf hub.now pass.old }
    requires driving { (seen : List (Entry PortEventOf PortAnswerOf)) × (was : Reach) × Driving M.steps M.refusal M.decks_left hub.now.start.0 pass.old.caller seen pass.old.seen port.now was (reach (S.left source.old) (S.faults source.old) (K.written sink.old) (K.faults sink.old) (P.paces pacer.old) (P.stops pacer.old) (C.time clock.old)) inlet.old at }
    ensures pass { IsPassOf hub.now pass.new × (pass.new.caller ≡ pass.old.caller) }
    ensures budget { inlet.new.budget ≡ inlet.old.budget }
    ensures step { (seen : List (Entry PortEventOf PortAnswerOf)) (was : Reach) → Driving M.steps M.refusal M.decks_left hub.now.start.0 pass.old.caller seen pass.old.seen port.now was (reach (S.left source.old) (S.faults source.old) (K.written sink.old) (K.faults sink.old) (P.paces pacer.old) (P.stops pacer.old) (C.time clock.old)) inlet.old at → Step M.steps M.refusal M.decks_left hub.now.start.0 pass.old.caller seen pass.new.seen port.now was (reach (S.left source.new) (S.faults source.new) (K.written sink.new) (K.faults sink.new) (P.paces pacer.new) (P.stops pacer.new) (C.time clock.new)) inlet.new result }
{
    let At { stage, number } = at;
    match stage {
        Stage::Begins => {
            let time = clock.now();
            match dialed(rt, hub, pass, port, time) {
                Ok(stage) => Ok(At { stage, number }),
                Err(_) => Err(End::NoMemory),
            }
        }
        Stage::Ready => {
            let time = clock.now();
            match next(rt, hub, pass, port, time) {
                Ok(stage) => Ok(At { stage, number }),
                Err(_) => Err(End::NoMemory),
            }
        }
        Stage::Writes(message) => {
            let number = next_number(number, inlet.budget);
            match write_own(alloc, sink, port, number, message) {
                Ok(()) => Ok(At {
                    stage: Stage::Awaits,
                    number,
                }),
                Err(end) => Err(end),
            }
        }
        Stage::Awaits => match inlet.advance(source) {
            Next::More => Ok(At {
                stage: Stage::Awaits,
                number,
            }),
            Next::Over(end) => Err(end),
            Next::Message(e) => Ok(At {
                stage: Stage::Hears(e),
                number,
            }),
        },
        Stage::Hears(e) => match answered(rt, hub, pass, port, e) {
            Ok(stage) => Ok(At { stage, number }),
            Err(_) => Err(End::NoMemory),
        },
        Stage::Rests => Ok(At {
            stage: after_pause(pacer.pause()),
            number,
        }),
        Stage::Beats => match beaten(rt, hub, pass, port) {
            Ok(stage) => Ok(At { stage, number }),
            Err(_) => Err(End::NoMemory),
        },
        Stage::Over(end) => Err(end),
    }
}

// Drives the connection up to its end event.
fn drive_all<
    M: StepRelation<Event = PortEvent, Answer = PortAnswer> + Machine<D>,
    D: Drop,
    S: Source,
    K: Sink,
    P: Pacer,
    C: Clock,
    R: Wait,
>(
    rt: &R,
    alloc: Global,
    hub: &Hub<M, D>,
    pass: &mut Pass<M, D>,
    port: &Port,
    source: &mut S,
    sink: &mut K,
    pacer: &mut P,
    clock: &mut C,
    inlet: &mut Inlet,
) -> End
    requires pass { IsPassOf hub.now pass.old }
    requires driving { Driving M.steps M.refusal M.decks_left hub.now.start.0 pass.old.caller pass.old.seen pass.old.seen port.now (reach (S.left source.old) (S.faults source.old) (K.written sink.old) (K.faults sink.old) (P.paces pacer.old) (P.stops pacer.old) (C.time clock.old)) (reach (S.left source.old) (S.faults source.old) (K.written sink.old) (K.faults sink.old) (P.paces pacer.old) (P.stops pacer.old) (C.time clock.old)) inlet.old (record { stage = Begins; number = 0 }) }
    ensures pass { IsPassOf hub.now pass.new × (pass.new.caller ≡ pass.old.caller) }
    ensures driven { Driven M.steps M.refusal M.decks_left hub.now.start.0 pass.old.caller pass.old.seen pass.new.seen port.now inlet.old.budget (reach (S.left source.old) (S.faults source.old) (K.written sink.old) (K.faults sink.old) (P.paces pacer.old) (P.stops pacer.old) (C.time clock.old)) (reach (S.left source.new) (S.faults source.new) (K.written sink.new) (K.faults sink.new) (P.paces pacer.new) (P.stops pacer.new) (C.time clock.new)) result }
{
    let mut at = At {
        stage: Stage::Begins,
        number: 0,
    };
    for _ in rt.forever() {
        match step(
            rt, alloc, hub, pass, port, source, sink, pacer, clock, inlet, at,
        ) {
            Ok(later) => at = later,
            Err(end) => return end,
        }
    }
    unreachable!()
}

// The same, with an inlet of its own.
fn drive_source<
    M: StepRelation<Event = PortEvent, Answer = PortAnswer> + Machine<D>,
    D: Drop,
    S: Source,
    K: Sink,
    P: Pacer,
    C: Clock,
    R: Wait,
>(
    rt: &R,
    alloc: Global,
    hub: &Hub<M, D>,
    pass: &mut Pass<M, D>,
    port: &Port,
    source: &mut S,
    sink: &mut K,
    pacer: &mut P,
    clock: &mut C,
    budget: u64,
) -> End
    requires { IsPassOf hub.now pass.old }
    ensures pass { IsPassOf hub.now pass.new × (pass.new.caller ≡ pass.old.caller) }
    ensures driven { Driven M.steps M.refusal M.decks_left hub.now.start.0 pass.old.caller pass.old.seen pass.new.seen port.now budget (reach (S.left source.old) (S.faults source.old) (K.written sink.old) (K.faults sink.old) (P.paces pacer.old) (P.stops pacer.old) (C.time clock.old)) (reach (S.left source.new) (S.faults source.new) (K.written sink.new) (K.faults sink.new) (P.paces pacer.new) (P.stops pacer.new) (C.time clock.new)) result }
{
    let mut inlet = Inlet::new(alloc, budget);
    let end = drive_all(
        rt, alloc, hub, pass, port, source, sink, pacer, clock, &mut inlet,
    );
    let_go(inlet);
    end
}

/// Drives a connection that this end opened, until it ends, and tells the hub its end.
///
/// The event Dialed comes first; then Next, the message that the hub gives is written, its answer is read, and Answered,
/// in turn. A message that answers Dialed is written, and its answer read, before the first Next. There is one pause
/// after each Next that was answered Nothing, and after each Answered of a roAck `NOT NOW` that was answered Taken; a
/// pace `Beat` gives the event Beat directly after it. EndedOut comes last. Messages are written in the port's names,
/// with the messageIDs 1, 2, 3 and so on; the names of those that are read aren't compared. At most `budget` bytes are
/// read, and only while an answer is awaited. The call waits where the source, the sink, the pacer or the hub does.
pub fn drive_port<
    M: StepRelation<Event = PortEvent, Answer = PortAnswer> + Machine<D>,
    D: Drop,
    S: Source,
    K: Sink,
    P: Pacer,
    C: Clock,
    R: Wait,
>(
    rt: &R,
    alloc: Global,
    hub: &Hub<M, D>,
    pass: &mut Pass<M, D>,
    port: Port,
    source: &mut S,
    sink: &mut K,
    pacer: &mut P,
    clock: &mut C,
    budget: u64,
) -> End
    requires { IsPassOf hub.now pass.old }
    ensures pass { IsPassOf hub.now pass.new × (pass.new.caller ≡ pass.old.caller) }
    ensures opened { Opened M.steps M.refusal M.decks_left hub.now.start.0 pass.old.caller pass.old.seen pass.new.seen port budget (reach (S.left source.old) (S.faults source.old) (K.written sink.old) (K.faults sink.old) (P.paces pacer.old) (P.stops pacer.old) (C.time clock.old)) (reach (S.left source.new) (S.faults source.new) (K.written sink.new) (K.faults sink.new) (P.paces pacer.new) (P.stops pacer.new) (C.time clock.new)) result }
{
    let end = drive_source(
        rt, alloc, hub, pass, &port, source, sink, pacer, clock, budget,
    );
    match tell(rt, hub, pass, &port, What::EndedOut) {
        Ok(answer) => {
            let_go(answer);
            end
        }
        Err(_) => End::NoMemory,
    }
}
