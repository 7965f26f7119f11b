//! The accepting loop of a door.
ghost use Rattle.std.specs.Prelude.{◌≡◌, IfErr, OnOk};
ghost use Rattle.std.specs.Arc.{arc_value};
ghost use Rattle.shared_machine.specs.Passes.{IsPassOf};
ghost use Rattle.port_doors.specs.Doors.{seen_of, DoorBy, Opening};

use crate::door::{Door, DoorEnd, DoorPort};
use crate::jobs::serving_job;
use mos_io::{Clock, Pacer};
use port_events::{PortAnswer, PortEvent};
use port_jobs::PortJob;
use port_links::{Dialer, Listener, Spawner};
use shared_machine::{Hub, Machine, Pass, StepRelation};
use std::alloc::Global;
use std::sync::{Arc, Wait};

// Accepts a connection, and starts a worker for it.
#[tactic(auto, using(crate::proofs::Countings::none_came, crate::proofs::Countings::one_opened))]
fn accept_next<
    M: StepRelation<Event = PortEvent, Answer = PortAnswer> + Machine<D>,
    D: Drop,
    L: Listener,
    Di: Dialer,
    P: Pacer + Drop,
    C: Clock + Drop,
    R: Wait + Copy + Drop,
    W: Spawner<PortJob<M, D, L::S, L::K, Di, P, C, R>>,
>(
    rt: &R,
    alloc: Global,
    hub: &Arc<Hub<M, D>>,
    pass: &mut Pass<M, D>,
    at: &DoorPort,
    door: &mut Door<L, W>,
) -> Result<(), DoorEnd>
    requires pass { IsPassOf (arc_value hub.now) pass.old }
    requires ready { W.ready (door.old).spawner }
    ensures ready { W.ready (door.new).spawner }
    ensures pass { pass.new ≡ pass.old }
    ensures started { OnOk result (Opening (seen_of L.coming L.faults W.took W.faults door.old) (seen_of L.coming L.faults W.took W.faults door.new)) }
    ensures ended { IfErr result (λ end. DoorBy (seen_of L.coming L.faults W.took W.faults door.old) (seen_of L.coming L.faults W.took W.faults door.new) end) }
{
    let Ok(next) = door.listener.accept() else {
        return Err(DoorEnd::ListenFault);
    };
    let Some(link) = next else {
        return Err(DoorEnd::Closed);
    };
    let Ok(job) = serving_job(rt, alloc, hub, pass, at, link) else {
        return Err(DoorEnd::NoMemory);
    };
    let Ok(()) = door.spawner.start(job) else {
        return Err(DoorEnd::NoWorker);
    };
    Ok(())
}

/// Starts a worker for each connection that comes, until none comes any more.
pub(crate) fn accept_all<
    M: StepRelation<Event = PortEvent, Answer = PortAnswer> + Machine<D>,
    D: Drop,
    L: Listener,
    Di: Dialer,
    P: Pacer + Drop,
    C: Clock + Drop,
    R: Wait + Copy + Drop,
    W: Spawner<PortJob<M, D, L::S, L::K, Di, P, C, R>>,
>(
    rt: &R,
    alloc: Global,
    hub: &Arc<Hub<M, D>>,
    pass: &mut Pass<M, D>,
    at: &DoorPort,
    door: &mut Door<L, W>,
) -> DoorEnd
    requires pass { IsPassOf (arc_value hub.now) pass.old }
    requires ready { W.ready (door.old).spawner }
    ensures ready { W.ready (door.new).spawner }
    ensures pass { pass.new ≡ pass.old }
    ensures door { DoorBy (seen_of L.coming L.faults W.took W.faults door.old) (seen_of L.coming L.faults W.took W.faults door.new) result }
{
    'next: for _ in rt.forever() {
        match accept_next(rt, alloc, hub, pass, at, door) {
            Ok(()) => {}
            Err(end) => return end,
        }
    }
    unreachable!()
}
