//! The events of a connection that this end opened.
ghost use Rattle.std.specs.Prelude.{◌≡◌, IfOk, IfErr};
ghost use Rattle.mos_values.specs.Sound.{IsSound};
ghost use Rattle.port_events.specs.declared.event.What.TheVariants.{Answered, Beat, Dialed, Next};
ghost use Rattle.shared_machine.specs.Passes.{IsPassOf};
ghost use Rattle.port_session.specs.Driven.{ToldOn};
ghost use Rattle.port_session.specs.Driving.{answered_to, beaten_to, dialed_to, next_to};

use crate::numbering::is_not_now;
use crate::port::Port;
use crate::stage::{Stage, after_answered, after_beat, after_dialed, after_next};
use crate::telling::tell;
use mos_fields::MosTime;
use mos_values::{Envelope, Message};
use port_events::{PortAnswer, PortEvent, SoundMessage, What};
use shared_machine::{Hub, Machine, NoMemory, Pass, StepRelation};
use std::sync::Wait;

/// Tells that the connection was opened.
pub(crate) fn dialed<
    M: StepRelation<Event = PortEvent, Answer = PortAnswer> + Machine<D>,
    D: Drop,
    R: Wait,
>(
    rt: &R,
    hub: &Hub<M, D>,
    pass: &mut Pass<M, D>,
    port: &Port,
    time: MosTime,
) -> Result<Stage, NoMemory>
    requires { IsPassOf hub.now pass.old }
    ensures pass { IsPassOf hub.now pass.new × (pass.new.caller ≡ pass.old.caller) }
    ensures ok { IfOk result (λ s. ToldOn M.steps M.refusal M.decks_left hub.now.start.0 pass.old.caller pass.old.seen pass.new.seen port.now (Dialed time) dialed_to s) }
    ensures err { IfErr result (λ _. pass.new ≡ pass.old) }
{
    match tell(rt, hub, pass, port, What::Dialed(time)) {
        Ok(answer) => Ok(after_dialed(answer)),
        Err(fault) => Err(fault),
    }
}

/// Asks for the next message.
pub(crate) fn next<
    M: StepRelation<Event = PortEvent, Answer = PortAnswer> + Machine<D>,
    D: Drop,
    R: Wait,
>(
    rt: &R,
    hub: &Hub<M, D>,
    pass: &mut Pass<M, D>,
    port: &Port,
    time: MosTime,
) -> Result<Stage, NoMemory>
    requires { IsPassOf hub.now pass.old }
    ensures pass { IsPassOf hub.now pass.new × (pass.new.caller ≡ pass.old.caller) }
    ensures ok { IfOk result (λ s. ToldOn M.steps M.refusal M.decks_left hub.now.start.0 pass.old.caller pass.old.seen pass.new.seen port.now (Next time) next_to s) }
    ensures err { IfErr result (λ _. pass.new ≡ pass.old) }
{
    match tell(rt, hub, pass, port, What::Next(time)) {
        Ok(answer) => Ok(after_next(answer)),
        Err(fault) => Err(fault),
    }
}

// The message, out of its envelope.
fn message_of(e: Envelope) -> Message
    ensures { result ≡ e.message }
{
    e.message
}

/// Tells an answer that was read.
pub(crate) fn answered<
    M: StepRelation<Event = PortEvent, Answer = PortAnswer> + Machine<D>,
    D: Drop,
    R: Wait,
>(
    rt: &R,
    hub: &Hub<M, D>,
    pass: &mut Pass<M, D>,
    port: &Port,
    e: Envelope,
) -> Result<Stage, NoMemory>
    requires pass { IsPassOf hub.now pass.old }
    requires sound { IsSound e.message }
    ensures pass { IsPassOf hub.now pass.new × (pass.new.caller ≡ pass.old.caller) }
    ensures ok { IfOk result (λ s. ToldOn M.steps M.refusal M.decks_left hub.now.start.0 pass.old.caller pass.old.seen pass.new.seen port.now (Answered e.message) (answered_to e.message) s) }
    ensures err { IfErr result (λ _. pass.new ≡ pass.old) }
{
    let waits = is_not_now(&e.message);
    let message = SoundMessage::new(message_of(e));
    match tell(rt, hub, pass, port, What::Answered(message)) {
        Ok(answer) => Ok(after_answered(waits, answer)),
        Err(fault) => Err(fault),
    }
}

/// Asks for a heartbeat.
pub(crate) fn beaten<
    M: StepRelation<Event = PortEvent, Answer = PortAnswer> + Machine<D>,
    D: Drop,
    R: Wait,
>(rt: &R, hub: &Hub<M, D>, pass: &mut Pass<M, D>, port: &Port) -> Result<Stage, NoMemory>
    requires { IsPassOf hub.now pass.old }
    ensures pass { IsPassOf hub.now pass.new × (pass.new.caller ≡ pass.old.caller) }
    ensures ok { IfOk result (λ s. ToldOn M.steps M.refusal M.decks_left hub.now.start.0 pass.old.caller pass.old.seen pass.new.seen port.now Beat beaten_to s) }
    ensures err { IfErr result (λ _. pass.new ≡ pass.old) }
{
    match tell(rt, hub, pass, port, What::Beat) {
        Ok(answer) => Ok(after_beat(answer)),
        Err(fault) => Err(fault),
    }
}
