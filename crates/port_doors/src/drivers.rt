//! The workers that dial.
ghost use Rattle.std.specs.Prelude.{◌≡◌, ◌<◌, ◌≤◌, ◌*◌, IfErr, IfOk, OnOk, length};
ghost use Rattle.std.specs.Arc.{arc_value};
ghost use Rattle.port_links.specs.Links.{More};
ghost use Rattle.shared_machine.specs.Passes.{IsPassOf};
ghost use Rattle.port_doors.specs.Doors.{NotStarted};

use crate::calls::{Call, Calls, Peer, peer_calls};
use crate::door::DoorEnd;
use crate::jobs::dialing_job;
use mos_fields::{Id, NoMemory, triple_ok};
use mos_io::{Clock, Pacer, Sink, Source};
use port_events::{PortAnswer, PortEvent};
use port_jobs::{Names, PortJob};
use port_links::{Dialer, Spawner};
use shared_machine::{Hub, Machine, Pass, StepRelation};
use std::alloc::Global;
use std::sync::{Arc, Wait};

/// What each worker that dials gets a twin of.
#[derive(Drop)]
pub struct Outbound<Di: Drop, P: Drop, C: Drop> {
    pub dialer: Di,
    pub pacer: P,
    pub clock: C,
}

// Twins for one more worker.
fn twins<Di: Dialer, P: Pacer + Drop, C: Clock + Drop>(
    outbound: &Outbound<Di, P, C>,
) -> Result<(Di, P, C), NoMemory>
    ensures { IfOk result (λ t. (Di.links t.0 ≡ Di.links outbound.now.dialer) × (P.paces t.1 ≡ P.paces outbound.now.pacer) × (C.time t.2 ≡ C.time outbound.now.clock)) }
{
    triple_ok(
        outbound.dialer.twin(),
        outbound.pacer.twin(),
        outbound.clock.twin(),
    )
}

// Starts the worker that makes this call.
fn start_call<
    M: StepRelation<Event = PortEvent, Answer = PortAnswer> + Machine<D>,
    D: Drop,
    S: Source + Drop,
    K: Sink + Drop,
    Di: Dialer,
    P: Pacer + Drop,
    C: Clock + Drop,
    R: Wait + Copy + Drop,
    W: Spawner<PortJob<M, D, S, K, Di, P, C, R>>,
>(
    rt: &R,
    alloc: Global,
    hub: &Arc<Hub<M, D>>,
    pass: &mut Pass<M, D>,
    call: Call,
    budget: u64,
    outbound: &Outbound<Di, P, C>,
    drivers: &mut W,
) -> Result<(), DoorEnd>
    requires pass { IsPassOf (arc_value hub.now) pass.old }
    requires ready { W.ready drivers.old }
    ensures ready { W.ready drivers.new }
    ensures pass { pass.new ≡ pass.old }
    ensures rises { W.faults drivers.old ≤ W.faults drivers.new }
    ensures taken { OnOk result (More (W.took drivers.old) (W.took drivers.new) 1) }
    ensures failed { IfErr result (λ end. NotStarted (W.faults drivers.old) (W.faults drivers.new) end) }
{
    let Ok((dialer, pacer, clock)) = twins(outbound) else {
        return Err(DoorEnd::NoMemory);
    };
    let Ok(job) = dialing_job(rt, alloc, hub, pass, call, budget, dialer, pacer, clock) else {
        return Err(DoorEnd::NoMemory);
    };
    let Ok(()) = drivers.start(job) else {
        return Err(DoorEnd::NoWorker);
    };
    Ok(())
}

// Starts the two workers of a peer.
fn start_calls<
    M: StepRelation<Event = PortEvent, Answer = PortAnswer> + Machine<D>,
    D: Drop,
    S: Source + Drop,
    K: Sink + Drop,
    Di: Dialer,
    P: Pacer + Drop,
    C: Clock + Drop,
    R: Wait + Copy + Drop,
    W: Spawner<PortJob<M, D, S, K, Di, P, C, R>>,
>(
    rt: &R,
    alloc: Global,
    hub: &Arc<Hub<M, D>>,
    pass: &mut Pass<M, D>,
    calls: Calls,
    budget: u64,
    outbound: &Outbound<Di, P, C>,
    drivers: &mut W,
) -> Result<(), DoorEnd>
    requires pass { IsPassOf (arc_value hub.now) pass.old }
    requires ready { W.ready drivers.old }
    ensures ready { W.ready drivers.new }
    ensures pass { pass.new ≡ pass.old }
    ensures rises { W.faults drivers.old ≤ W.faults drivers.new }
    ensures taken { OnOk result (More (W.took drivers.old) (W.took drivers.new) 2) }
    ensures failed { IfErr result (λ end. NotStarted (W.faults drivers.old) (W.faults drivers.new) end) }
{
    let Calls { upper, lower } = calls;
    if let Err(end) = start_call(rt, alloc, hub, pass, upper, budget, outbound, drivers) {
        return Err(end);
    }
    start_call(rt, alloc, hub, pass, lower, budget, outbound, drivers)
}

/// Starts the two workers of a peer, whose device perhaps has a number.
pub(crate) fn start_peer<
    M: StepRelation<Event = PortEvent, Answer = PortAnswer> + Machine<D>,
    D: Drop,
    S: Source + Drop,
    K: Sink + Drop,
    Di: Dialer,
    P: Pacer + Drop,
    C: Clock + Drop,
    R: Wait + Copy + Drop,
    W: Spawner<PortJob<M, D, S, K, Di, P, C, R>>,
>(
    rt: &R,
    alloc: Global,
    hub: &Arc<Hub<M, D>>,
    pass: &mut Pass<M, D>,
    device: Option<u32>,
    mos: &Id,
    ncs: &Id,
    peer: &Peer,
    budget: u64,
    outbound: &Outbound<Di, P, C>,
    drivers: &mut W,
) -> Result<(), DoorEnd>
    requires pass { IsPassOf (arc_value hub.now) pass.old }
    requires ready { W.ready drivers.old }
    ensures ready { W.ready drivers.new }
    ensures pass { pass.new ≡ pass.old }
    ensures rises { W.faults drivers.old ≤ W.faults drivers.new }
    ensures taken { OnOk result (More (W.took drivers.old) (W.took drivers.new) 2) }
    ensures failed { IfErr result (λ end. NotStarted (W.faults drivers.old) (W.faults drivers.new) end) }
{
    let Ok(calls) = peer_calls(device, mos, ncs, peer) else {
        return Err(DoorEnd::NoMemory);
    };
    start_calls(rt, alloc, hub, pass, calls, budget, outbound, drivers)
}

// Starts the two workers of the device with this number.
fn start_device<
    M: StepRelation<Event = PortEvent, Answer = PortAnswer> + Machine<D>,
    D: Drop,
    S: Source + Drop,
    K: Sink + Drop,
    Di: Dialer,
    P: Pacer + Drop,
    C: Clock + Drop,
    R: Wait + Copy + Drop,
    W: Spawner<PortJob<M, D, S, K, Di, P, C, R>>,
>(
    rt: &R,
    alloc: Global,
    hub: &Arc<Hub<M, D>>,
    pass: &mut Pass<M, D>,
    device: usize,
    names: &Names,
    ncs: &Id,
    peers: &[Peer],
    budget: u64,
    outbound: &Outbound<Di, P, C>,
    drivers: &mut W,
) -> Result<(), DoorEnd>
    requires pass { IsPassOf (arc_value hub.now) pass.old }
    requires ready { W.ready drivers.old }
    requires peers { length peers.now ≡ length names.now }
    requires device { device < length peers.now }
    ensures ready { W.ready drivers.new }
    ensures pass { pass.new ≡ pass.old }
    ensures rises { W.faults drivers.old ≤ W.faults drivers.new }
    ensures taken { OnOk result (More (W.took drivers.old) (W.took drivers.new) 2) }
    ensures failed { IfErr result (λ end. NotStarted (W.faults drivers.old) (W.faults drivers.new) end) }
{
    match names.ids().get(device) {
        Some(mos) => start_peer(
            rt,
            alloc,
            hub,
            pass,
            Some(device as u32),
            mos,
            ncs,
            &peers[device],
            budget,
            outbound,
            drivers,
        ),
        None => unreachable!(),
    }
}

/// Starts two workers for each device, the one at its upper port first.
pub(crate) fn start_devices<
    M: StepRelation<Event = PortEvent, Answer = PortAnswer> + Machine<D>,
    D: Drop,
    S: Source + Drop,
    K: Sink + Drop,
    Di: Dialer,
    P: Pacer + Drop,
    C: Clock + Drop,
    R: Wait + Copy + Drop,
    W: Spawner<PortJob<M, D, S, K, Di, P, C, R>>,
>(
    rt: &R,
    alloc: Global,
    hub: &Arc<Hub<M, D>>,
    pass: &mut Pass<M, D>,
    names: &Names,
    ncs: &Id,
    peers: &[Peer],
    budget: u64,
    outbound: &Outbound<Di, P, C>,
    drivers: &mut W,
) -> Result<(), DoorEnd>
    requires pass { IsPassOf (arc_value hub.now) pass.old }
    requires ready { W.ready drivers.old }
    requires peers { length peers.now ≡ length names.now }
    ensures ready { W.ready drivers.new }
    ensures pass { pass.new ≡ pass.old }
    ensures rises { W.faults drivers.old ≤ W.faults drivers.new }
    ensures taken { OnOk result (More (W.took drivers.old) (W.took drivers.new) (2 * length peers.now)) }
    ensures failed { IfErr result (λ end. NotStarted (W.faults drivers.old) (W.faults drivers.new) end) }
{
    for i in 0..peers.len() {
        if let Err(end) = start_device(
            rt, alloc, hub, pass, i, names, ncs, peers, budget, outbound, drivers,
        ) {
            return Err(end);
        }
    }
    Ok(())
}
