//! A connection that this end accepted.
ghost use Rattle.std.specs.Prelude.{◌≡◌, List, false};
ghost use Rattle.port_events.specs.declared.answer.PortAnswer.{PortAnswer as PortAnswerOf};
ghost use Rattle.port_events.specs.declared.event.PortEvent.{PortEvent as PortEventOf};
ghost use Rattle.shared_machine.specs.declared.entry.Entry.{Entry};
ghost use Rattle.shared_machine.specs.Passes.{IsPassOf};
ghost use Rattle.port_session.specs.Answering.{Accepted, Ended, Going, Sides, Turn, sides};

use crate::end::End;
use crate::hearing::serve;
use crate::inlet::{Inlet, Next};
use crate::port::Port;
use crate::telling::tell;
use mos_fields::let_go;
use mos_io::{Sink, Source};
use port_events::{PortAnswer, PortEvent, What};
use shared_machine::{Hub, Machine, Pass, StepRelation};
use std::alloc::Global;
use std::sync::Wait;

// One message, or one read. Whether Accepted was told.
fn turn<
    M: StepRelation<Event = PortEvent, Answer = PortAnswer> + Machine<D>,
    D: Drop,
    S: Source,
    K: Sink,
    R: Wait,
>(
    rt: &R,
    alloc: Global,
    hub: &Hub<M, D>,
    pass: &mut Pass<M, D>,
    port: &Port,
    source: &mut S,
    sink: &mut K,
    inlet: &mut Inlet,
    on: bool,
) -> Result<bool, End>
    requires pass { IsPassOf hub.now pass.old }
    requires going { (seen : List (Entry PortEventOf PortAnswerOf)) × (was : Sides) × Going M.steps M.refusal M.decks_left hub.now.start.0 pass.old.caller seen pass.old.seen port.now was (sides (S.left source.old) (S.faults source.old) (K.written sink.old) (K.faults sink.old)) inlet.old on }
    ensures pass { IsPassOf hub.now pass.new × (pass.new.caller ≡ pass.old.caller) }
    ensures budget { inlet.new.budget ≡ inlet.old.budget }
    ensures turn { (seen : List (Entry PortEventOf PortAnswerOf)) (was : Sides) → Going M.steps M.refusal M.decks_left hub.now.start.0 pass.old.caller seen pass.old.seen port.now was (sides (S.left source.old) (S.faults source.old) (K.written sink.old) (K.faults sink.old)) inlet.old on
        → Turn M.steps M.refusal M.decks_left hub.now.start.0 pass.old.caller seen pass.new.seen port.now was (sides (S.left source.new) (S.faults source.new) (K.written sink.new) (K.faults sink.new)) inlet.new result }
{
    match inlet.advance(source) {
        Next::More => Ok(on),
        Next::Over(end) => Err(end),
        Next::Message(e) => serve(rt, alloc, hub, pass, port, sink, on, e),
    }
}

// Serves the connection up to its end event.
fn serve_all<
    M: StepRelation<Event = PortEvent, Answer = PortAnswer> + Machine<D>,
    D: Drop,
    S: Source,
    K: Sink,
    R: Wait,
>(
    rt: &R,
    alloc: Global,
    hub: &Hub<M, D>,
    pass: &mut Pass<M, D>,
    port: &Port,
    source: &mut S,
    sink: &mut K,
    inlet: &mut Inlet,
) -> End
    requires pass { IsPassOf hub.now pass.old }
    requires going { Going M.steps M.refusal M.decks_left hub.now.start.0 pass.old.caller pass.old.seen pass.old.seen port.now (sides (S.left source.old) (S.faults source.old) (K.written sink.old) (K.faults sink.old)) (sides (S.left source.old) (S.faults source.old) (K.written sink.old) (K.faults sink.old)) inlet.old false }
    ensures pass { IsPassOf hub.now pass.new × (pass.new.caller ≡ pass.old.caller) }
    ensures ended { Ended M.steps M.refusal M.decks_left hub.now.start.0 pass.old.caller pass.old.seen pass.new.seen port.now inlet.old.budget (sides (S.left source.old) (S.faults source.old) (K.written sink.old) (K.faults sink.old)) (sides (S.left source.new) (S.faults source.new) (K.written sink.new) (K.faults sink.new)) result }
{
    let mut on = false;
    for _ in rt.forever() {
        match turn(rt, alloc, hub, pass, port, source, sink, inlet, on) {
            Ok(later) => on = later,
            Err(end) => return end,
        }
    }
    unreachable!()
}

// The same, with an inlet of its own.
fn serve_source<
    M: StepRelation<Event = PortEvent, Answer = PortAnswer> + Machine<D>,
    D: Drop,
    S: Source,
    K: Sink,
    R: Wait,
>(
    rt: &R,
    alloc: Global,
    hub: &Hub<M, D>,
    pass: &mut Pass<M, D>,
    port: &Port,
    source: &mut S,
    sink: &mut K,
    budget: u64,
) -> End
    requires { IsPassOf hub.now pass.old }
    ensures pass { IsPassOf hub.now pass.new × (pass.new.caller ≡ pass.old.caller) }
    ensures ended { Ended M.steps M.refusal M.decks_left hub.now.start.0 pass.old.caller pass.old.seen pass.new.seen port.now budget (sides (S.left source.old) (S.faults source.old) (K.written sink.old) (K.faults sink.old)) (sides (S.left source.new) (S.faults source.new) (K.written sink.new) (K.faults sink.new)) result }
{
    let mut inlet = Inlet::new(alloc, budget);
    let end = serve_all(rt, alloc, hub, pass, port, source, sink, &mut inlet);
    let_go(inlet);
    end
}

/// Serves a connection that this end accepted, until it ends, and tells the hub its end.
///
/// The event Accepted comes directly before the first message for this end, Heard for each such message in order, and
/// EndedIn last. A message with other names than the port's (on the editors' port: with another ncsID) is answered
/// `NOT FOR ME`, and is no event. Each answer is one write, as soon as its message was heard. At most `budget` bytes are
/// read. The call waits where the source, the sink or the hub does.
pub fn answer_port<
    M: StepRelation<Event = PortEvent, Answer = PortAnswer> + Machine<D>,
    D: Drop,
    S: Source,
    K: Sink,
    R: Wait,
>(
    rt: &R,
    alloc: Global,
    hub: &Hub<M, D>,
    pass: &mut Pass<M, D>,
    port: Port,
    source: &mut S,
    sink: &mut K,
    budget: u64,
) -> End
    requires { IsPassOf hub.now pass.old }
    ensures pass { IsPassOf hub.now pass.new × (pass.new.caller ≡ pass.old.caller) }
    ensures accepted { Accepted M.steps M.refusal M.decks_left hub.now.start.0 pass.old.caller pass.old.seen pass.new.seen port budget (sides (S.left source.old) (S.faults source.old) (K.written sink.old) (K.faults sink.old)) (sides (S.left source.new) (S.faults source.new) (K.written sink.new) (K.faults sink.new)) result }
{
    let end = serve_source(rt, alloc, hub, pass, &port, source, sink, budget);
    match tell(rt, hub, pass, &port, What::EndedIn) {
        Ok(answer) => {
            let_go(answer);
            end
        }
        Err(_) => End::NoMemory,
    }
}
