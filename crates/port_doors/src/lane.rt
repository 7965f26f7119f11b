//! A door with all that its loop needs.
ghost use Rattle.std.specs.Prelude.{◌≡◌};
ghost use Rattle.std.specs.Arc.{arc_value};
ghost use Rattle.shared_machine.specs.Passes.{IsPassOf};

use crate::accept::accept_all;
use crate::door::{Door, DoorEnd, DoorPort};
use mos_io::{Clock, Pacer};
use port_events::{PortAnswer, PortEvent};
use port_jobs::PortJob;
use port_links::{Dialer, Listener, Spawner};
use shared_machine::{Hub, Machine, Pass, StepRelation};
use side_lanes::Lane;
use std::alloc::Global;
use std::marker::PhantomData;
use std::sync::{Arc, Wait};

/// What the loop of a door needs but the door.
#[derive(Drop)]
pub struct Host<
    M: StepRelation<Event = PortEvent, Answer = PortAnswer> + Machine<D>,
    D: Drop,
    Di: Drop,
    P: Drop,
    C: Drop,
    R: Wait + Drop,
> {
    pub rt: R,
    pub alloc: Global,
    pub hub: Arc<Hub<M, D>>,
    pub pass: Pass<M, D>,
    pub at: DoorPort,
    /// the types of a worker that dials, which are in the type of each job
    pub of: PhantomData<(Di, P, C)>,
    pub ghost own: { IsPassOf (arc_value hub) pass },
}

/// The loop of one door, before it runs and after.
#[derive(Drop)]
pub struct DoorLane<
    M: StepRelation<Event = PortEvent, Answer = PortAnswer> + Machine<D>,
    D: Drop,
    L: Drop,
    Di: Drop,
    P: Drop,
    C: Drop,
    R: Wait + Drop,
    W: Drop,
> {
    pub host: Host<M, D, Di, P, C, R>,
    pub door: Door<L, W>,
    /// how the loop ended
    pub end: DoorEnd,
}

impl<
    M: StepRelation<Event = PortEvent, Answer = PortAnswer> + Machine<D>,
    D: Drop,
    L: Listener,
    Di: Dialer,
    P: Pacer + Drop,
    C: Clock + Drop,
    R: Wait + Copy + Drop,
    W: Spawner<PortJob<M, D, L::S, L::K, Di, P, C, R>>,
> Lane for DoorLane<M, D, L, Di, P, C, R, W> {
    ghost use Rattle.port_doors.specs.Doors.{seen_of, DoorBy};

    ghost may_run = { λ lane. W.ready lane.door.spawner };

    ghost ran = { λ was now. DoorBy (seen_of L.coming L.faults W.took W.faults was.door)
        (seen_of L.coming L.faults W.took W.faults now.door) now.end };

    fn run(self) -> DoorLane<M, D, L, Di, P, C, R, W> {
        let DoorLane {
            host,
            mut door,
            end: _,
        } = self;
        let Host {
            rt,
            alloc,
            hub,
            mut pass,
            at,
            of,
        } = host;
        let end = accept_all(&rt, alloc, &hub, &mut pass, &at, &mut door);
        let host = Host {
            rt,
            alloc,
            hub,
            pass,
            at,
            of,
        };
        DoorLane { host, door, end }
    }
}
