//! A worker that serves a connection.
ghost use Rattle.std.specs.Prelude.{◌≡◌, ◌<◌, ◌⊎◌, Some, None, IfOk, length, slice_get};
ghost use Rattle.std.specs.Option.{option_map};
ghost use Rattle.std.specs.Arc.{arc_value};
ghost use Rattle.shared_machine.specs.Passes.{IsPassOf};
ghost use Rattle.port_dialing.specs.Ports.{at_link};
ghost use Rattle.port_session.specs.Answering.{Accepted, sides};
ghost use Rattle.port_fronts.specs.Fronts.{before};
ghost use Rattle.port_looking.specs.Looking.{AreNames};
ghost use Rattle.port_jobs.specs.Reports.{AtKnown, AtUnnamed, IsServed};

use crate::names::Names;
use mos_fields::{Id, Ids, NoMemory};
use mos_io::{Sink, Source};
use port_events::{PortAnswer, PortEvent};
use port_fronts::Fronted;
use port_looking::{LookFault, look};
use port_session::{End, Port, answer_port};
use shared_machine::{Hub, Machine, Pass, StepRelation};
use std::alloc::Global;
use std::sync::{Arc, Wait};

// A copy of the name at this place.
fn name_at(names: &Ids, device: u32) -> Result<Id, NoMemory>
    requires { device < length names.now }
    ensures { IfOk result (λ id. slice_get names.now device ≡ Some id) }
{
    match names.get(device as usize) {
        Some(id) => id.try_clone(),
        None => unreachable!(),
    }
}

// Serves the connection at the port of this device, and gives that device again, unless there was no memory for its name.
fn serve_device<
    M: StepRelation<Event = PortEvent, Answer = PortAnswer> + Machine<D>,
    D: Drop,
    S: Source + Drop,
    K: Sink,
    R: Wait,
>(
    rt: &R,
    alloc: Global,
    hub: &Hub<M, D>,
    pass: &mut Pass<M, D>,
    port: Port,
    names: &Ids,
    device: u32,
    number: u64,
    source: Fronted<S>,
    sink: &mut K,
    budget: u64,
) -> (S, Option<u32>, End)
    requires pass { IsPassOf hub.now pass.old }
    requires device { device < length names.now }
    ensures pass { IsPassOf hub.now pass.new × (pass.new.caller ≡ pass.old.caller) }
    ensures served { AtKnown M.steps M.refusal M.decks_left hub.now.start.0 pass.old.caller pass.old.seen pass.new.seen port names.now device number budget (sides (before source.bytes (S.left source.source)) (S.faults source.source) (K.written sink.old) (K.faults sink.old)) (sides (S.left result.0) (S.faults result.0) (K.written sink.new) (K.faults sink.new)) result.1 result.2 ⊎ AtUnnamed pass.old.seen pass.new.seen (sides (S.left source.source) (S.faults source.source) (K.written sink.old) (K.faults sink.old)) (sides (S.left result.0) (S.faults result.0) (K.written sink.new) (K.faults sink.new)) result.1 result.2 }
{
    let Ok(mos) = name_at(names, device) else {
        return (source.into_source(), None, End::NoMemory);
    };
    let here = Port {
        side: port.side,
        device: Some(device),
        link: number,
        mos,
        ncs: port.ncs,
    };
    let mut source = source;
    let end = answer_port(rt, alloc, hub, pass, here, &mut source, sink, budget);
    (source.into_source(), Some(device), end)
}

// Serves the connection at the port of the device that its first message names.
fn serve_named<
    M: StepRelation<Event = PortEvent, Answer = PortAnswer> + Machine<D>,
    D: Drop,
    S: Source + Drop,
    K: Sink,
    R: Wait,
>(
    rt: &R,
    alloc: Global,
    hub: &Hub<M, D>,
    pass: &mut Pass<M, D>,
    port: Port,
    names: &Ids,
    number: u64,
    source: S,
    sink: &mut K,
    budget: u64,
) -> (S, Option<u32>, End)
    requires pass { IsPassOf hub.now pass.old }
    requires names { AreNames names.now }
    ensures pass { IsPassOf hub.now pass.new × (pass.new.caller ≡ pass.old.caller) }
    ensures served { IsServed M.steps M.refusal M.decks_left hub.now.start.0 pass.old.caller pass.old.seen pass.new.seen port (Some names.now) number budget (sides (S.left source) (S.faults source) (K.written sink.old) (K.faults sink.old)) (sides (S.left result.0) (S.faults result.0) (K.written sink.new) (K.faults sink.new)) result.1 result.2 }
{
    match look(alloc, source, names, budget) {
        Ok((device, source)) => serve_device(
            rt, alloc, hub, pass, port, names, device, number, source, sink, budget,
        ),
        Err(LookFault::ReadFault { source }) => (source, None, End::ReadFault),
        Err(LookFault::NoMemory { source }) => (source, None, End::NoMemory),
    }
}

// Serves the connection at the port as it is.
fn serve_plain<
    M: StepRelation<Event = PortEvent, Answer = PortAnswer> + Machine<D>,
    D: Drop,
    S: Source + Drop,
    K: Sink,
    R: Wait,
>(
    rt: &R,
    alloc: Global,
    hub: &Hub<M, D>,
    pass: &mut Pass<M, D>,
    port: Port,
    number: u64,
    source: S,
    sink: &mut K,
    budget: u64,
) -> (S, Option<u32>, End)
    requires { IsPassOf hub.now pass.old }
    ensures pass { IsPassOf hub.now pass.new × (pass.new.caller ≡ pass.old.caller) }
    ensures served { (result.1 ≡ None) × Accepted M.steps M.refusal M.decks_left hub.now.start.0 pass.old.caller pass.old.seen pass.new.seen (at_link port number) budget (sides (S.left source) (S.faults source) (K.written sink.old) (K.faults sink.old)) (sides (S.left result.0) (S.faults result.0) (K.written sink.new) (K.faults sink.new)) result.2 }
{
    let here = Port {
        side: port.side,
        device: port.device,
        link: number,
        mos: port.mos,
        ncs: port.ncs,
    };
    let mut source = source;
    let end = answer_port(rt, alloc, hub, pass, here, &mut source, sink, budget);
    (source, None, end)
}

/// Serves a connection that was accepted: at the port as it is, or, where the devices have names, at that of the device
/// that its first message names. The source comes back, that device, and why it ended.
pub(crate) fn serve<
    M: StepRelation<Event = PortEvent, Answer = PortAnswer> + Machine<D>,
    D: Drop,
    S: Source + Drop,
    K: Sink,
    R: Wait,
>(
    rt: &R,
    alloc: Global,
    hub: &Hub<M, D>,
    pass: &mut Pass<M, D>,
    port: Port,
    names: &Option<Arc<Names>>,
    number: u64,
    source: S,
    sink: &mut K,
    budget: u64,
) -> (S, Option<u32>, End)
    requires { IsPassOf hub.now pass.old }
    ensures pass { IsPassOf hub.now pass.new × (pass.new.caller ≡ pass.old.caller) }
    ensures served { IsServed M.steps M.refusal M.decks_left hub.now.start.0 pass.old.caller pass.old.seen pass.new.seen port (option_map arc_value names.now) number budget (sides (S.left source) (S.faults source) (K.written sink.old) (K.faults sink.old)) (sides (S.left result.0) (S.faults result.0) (K.written sink.new) (K.faults sink.new)) result.1 result.2 }
{
    match names {
        Some(names) => serve_named(
            rt,
            alloc,
            hub,
            pass,
            port,
            names.ids(),
            number,
            source,
            sink,
            budget,
        ),
        None => serve_plain(rt, alloc, hub, pass, port, number, source, sink, budget),
    }
}
