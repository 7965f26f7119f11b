//! One message of a connection that this end accepted.
ghost use Rattle.std.specs.Prelude.{◌≡◌, ◌≤◌, List};
ghost use Rattle.mos_values.specs.Sound.{IsSound};
ghost use Rattle.mos_values.specs.declared.message.Message.TheVariants.{ReqMachInfo as reqMachInfo};
ghost use Rattle.port_events.specs.declared.answer.PortAnswer.{PortAnswer as PortAnswerOf};
ghost use Rattle.port_events.specs.declared.event.PortEvent.{PortEvent as PortEventOf};
ghost use Rattle.shared_machine.specs.Passes.{IsPassOf};
ghost use Rattle.port_session.specs.Calls.{Gained};
ghost use Rattle.port_session.specs.Messages.{IsFor};
ghost use Rattle.port_session.specs.Serving.{Began, Exchanged, Goes, Responds};

use crate::end::End;
use crate::names::is_for;
use crate::port::Port;
use crate::refusing::write_refusal;
use crate::telling::tell;
use crate::writing::write_reply;
use mos_fields::let_go;
use mos_io::Sink;
use mos_values::{Envelope, Message};
use port_events::{PortAnswer, PortEvent, SoundMessage, What};
use shared_machine::{Hub, Machine, Pass, StepRelation};
use std::alloc::Global;
use std::mem::replace;
use std::sync::Wait;

// Tells that the connection was accepted, where that wasn't told.
fn accept<M: StepRelation<Event = PortEvent, Answer = PortAnswer> + Machine<D>, D: Drop, R: Wait>(
    rt: &R,
    hub: &Hub<M, D>,
    pass: &mut Pass<M, D>,
    port: &Port,
    on: bool,
) -> Result<(), End>
    requires { IsPassOf hub.now pass.old }
    ensures pass { IsPassOf hub.now pass.new × (pass.new.caller ≡ pass.old.caller) }
    ensures began { (calls : List (PortEventOf × PortAnswerOf)) × Gained M.steps M.refusal M.decks_left hub.now.start.0 pass.old.caller pass.old.seen pass.new.seen calls × Began port.now on calls result }
{
    if on {
        return Ok(());
    }
    match tell(rt, hub, pass, port, What::Accepted) {
        Ok(answer) => is_fine(answer),
        Err(_) => Err(End::NoMemory),
    }
}

// Whether the connection goes on after this answer.
fn is_fine(answer: PortAnswer) -> Result<(), End>
    ensures { Goes answer result }
{
    match answer {
        PortAnswer::Stale => Err(End::Stale),
        PortAnswer::Unasked => Err(End::Unasked),
        PortAnswer::Say(message) => {
            let_go(message);
            Ok(())
        }
        PortAnswer::Done => Ok(()),
        PortAnswer::Nothing => Ok(()),
        PortAnswer::Taken => Ok(()),
    }
}

// Writes what the hub answered, in the envelope of the message that it answers. Whether the connection goes on.
fn respond<K: Sink>(
    alloc: Global,
    sink: &mut K,
    e: &Envelope,
    answer: PortAnswer,
) -> Result<bool, End>
    ensures responds { Responds (K.written sink.old) (K.written sink.new) (K.faults sink.old) (K.faults sink.new) e.now answer result }
    ensures rises { K.faults sink.old ≤ K.faults sink.new }
{
    match answer {
        PortAnswer::Stale => Err(End::Stale),
        PortAnswer::Unasked => Err(End::Unasked),
        PortAnswer::Say(message) => {
            let written = write_reply(alloc, sink, e, &message);
            let_go(message);
            match written {
                Ok(()) => Ok(true),
                Err(end) => Err(end),
            }
        }
        PortAnswer::Done => Ok(true),
        PortAnswer::Nothing => Ok(true),
        PortAnswer::Taken => Ok(true),
    }
}

// The message, out of its envelope.
fn take_message(e: &mut Envelope) -> Message
    ensures message { result ≡ e.old.message }
    ensures rest { e.new ≡ record e.old { message = reqMachInfo } }
{
    replace(&mut e.message, Message::ReqMachInfo)
}

// Tells a message for this end, and writes the answer.
fn hear<
    M: StepRelation<Event = PortEvent, Answer = PortAnswer> + Machine<D>,
    D: Drop,
    K: Sink,
    R: Wait,
>(
    rt: &R,
    alloc: Global,
    hub: &Hub<M, D>,
    pass: &mut Pass<M, D>,
    port: &Port,
    sink: &mut K,
    on: bool,
    e: &mut Envelope,
) -> Result<bool, End>
    requires pass { IsPassOf hub.now pass.old }
    requires sound { IsSound e.old.message }
    requires named { IsFor port.now e.old }
    ensures pass { IsPassOf hub.now pass.new × (pass.new.caller ≡ pass.old.caller) }
    ensures rises { K.faults sink.old ≤ K.faults sink.new }
    ensures exchanged { Exchanged M.steps M.refusal M.decks_left hub.now.start.0 pass.old.caller pass.old.seen pass.new.seen (K.written sink.old) (K.faults sink.old) (K.written sink.new) (K.faults sink.new) port.now on e.old result }
{
    if let Err(end) = accept(rt, hub, pass, port, on) {
        return Err(end);
    }
    let message = SoundMessage::new(take_message(e));
    match tell(rt, hub, pass, port, What::Heard(message)) {
        Ok(answer) => respond(alloc, sink, e, answer),
        Err(_) => Err(End::NoMemory),
    }
}

/// Serves one message: one for this end is told and answered, one for another end is answered `NOT FOR ME`. Whether
/// Accepted was told.
pub(crate) fn serve<
    M: StepRelation<Event = PortEvent, Answer = PortAnswer> + Machine<D>,
    D: Drop,
    K: Sink,
    R: Wait,
>(
    rt: &R,
    alloc: Global,
    hub: &Hub<M, D>,
    pass: &mut Pass<M, D>,
    port: &Port,
    sink: &mut K,
    on: bool,
    mut e: Envelope,
) -> Result<bool, End>
    requires pass { IsPassOf hub.now pass.old }
    requires sound { IsSound e.message }
    ensures pass { IsPassOf hub.now pass.new × (pass.new.caller ≡ pass.old.caller) }
    ensures rises { K.faults sink.old ≤ K.faults sink.new }
    ensures exchanged { Exchanged M.steps M.refusal M.decks_left hub.now.start.0 pass.old.caller pass.old.seen pass.new.seen (K.written sink.old) (K.faults sink.old) (K.written sink.new) (K.faults sink.new) port.now on e result }
{
    if is_for(port, &e) {
        let heard = hear(rt, alloc, hub, pass, port, sink, on, &mut e);
        let_go(e);
        return heard;
    }
    let refused = write_refusal(alloc, sink, port.side, &e);
    let_go(e);
    match refused {
        Ok(()) => Ok(on),
        Err(end) => Err(end),
    }
}
