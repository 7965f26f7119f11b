//! The loops of the doors, side by side.
ghost use Rattle.std.specs.Prelude.{◌≡◌, true, false};
ghost use Rattle.side_lanes.specs.Lanes.{IsThere, OfThird};
ghost use Rattle.port_doors.specs.declared.door.DoorEnd.TheVariants.{Closed as closed_end};
ghost use Rattle.port_doors.specs.Serving.{DoorsRan, GateReady, ServerReady, first_end as first_end_of, gate_seen, server_seen};

use crate::door::{Door, DoorEnd};
use crate::hosts::{GateHosts, ServerHosts};
use crate::lane::{DoorLane, Host};
use crate::ports::{GatePorts, ServerPorts};
use mos_io::{Clock, Pacer};
use port_events::{PortAnswer, PortEvent};
use port_jobs::PortJob;
use port_links::{Dialer, Listener, Spawner};
use shared_machine::{Machine, StepRelation};
use side_lanes::{Parts, run_in_place};
use std::sync::Wait;
use std::thread::Threads;

// The first end that isn't Closed.
fn first_end(first: DoorEnd, next: DoorEnd) -> DoorEnd
    ensures { result ≡ first_end_of first next }
{
    match first {
        DoorEnd::Closed => next,
        other => other,
    }
}

// The loop of a door, before it runs.
fn new_lane<
    M: StepRelation<Event = PortEvent, Answer = PortAnswer> + Machine<D>,
    D: Drop,
    L: Drop,
    Di: Drop,
    P: Drop,
    C: Drop,
    R: Wait + Drop,
    W: Drop,
>(host: Host<M, D, Di, P, C, R>, door: Door<L, W>) -> DoorLane<M, D, L, Di, P, C, R, W>
    ensures host { result.host ≡ host }
    ensures door { result.door ≡ door }
{
    DoorLane {
        host,
        door,
        end: DoorEnd::NoMemory,
    }
}

impl<
    M: StepRelation<Event = PortEvent, Answer = PortAnswer> + Machine<D>,
    D: Drop,
    L: Listener,
    Di: Dialer,
    P: Pacer + Drop,
    C: Clock + Drop,
    R: Wait + Copy + Drop,
    W: Spawner<PortJob<M, D, L::S, L::K, Di, P, C, R>>,
> Parts<ServerPorts<L, W>, DoorLane<M, D, L, Di, P, C, R, W>, W, DoorEnd>
    for ServerHosts<M, D, Di, P, C, R> {
    ghost use Rattle.std.specs.Prelude.{◌≡◌, true};
    ghost use Rattle.side_lanes.specs.Lanes.{OfThird};
    ghost use Rattle.port_events.specs.declared.event.Side.TheVariants.{Upper, Lower, Editor};
    ghost use Rattle.port_doors.specs.Serving.{first_end, ServerReady};

    ghost three = { true };

    ghost may_part = { λ hosts ports. ServerReady W.ready ports };

    ghost parts = { λ hosts ports a b c drivers. (a.door ≡ ports.upper) × (b.door ≡ ports.lower) × OfThird (λ lane. (lane.door ≡ ports.editor) × (lane.host.at.port.side ≡ Editor)) c × (drivers ≡ ports.drivers)
        × (a.host.at.port.side ≡ Upper) × (b.host.at.port.side ≡ Lower) };

    ghost gathers = { λ a b c drivers ports end. (ports.upper ≡ a.door) × (ports.lower ≡ b.door) × (ports.drivers ≡ drivers)
        × OfThird (λ lane. (ports.editor ≡ lane.door) × (end ≡ first_end a.end (first_end b.end lane.end))) c };

    fn part(
        self,
        whole: ServerPorts<L, W>,
    ) -> (
        DoorLane<M, D, L, Di, P, C, R, W>,
        (
            DoorLane<M, D, L, Di, P, C, R, W>,
            (Option<DoorLane<M, D, L, Di, P, C, R, W>>, W),
        ),
    ) {
        let upper = new_lane(self.upper, whole.upper);
        let lower = new_lane(self.lower, whole.lower);
        let editor = new_lane(self.editor, whole.editor);
        (upper, (lower, (Some(editor), whole.drivers)))
    }

    fn gather(
        a: DoorLane<M, D, L, Di, P, C, R, W>,
        b: DoorLane<M, D, L, Di, P, C, R, W>,
        c: Option<DoorLane<M, D, L, Di, P, C, R, W>>,
        rest: W,
    ) -> (ServerPorts<L, W>, DoorEnd)
        requires { IsThere true c }
        ensures { ((result.0).upper ≡ a.door) × ((result.0).lower ≡ b.door) × ((result.0).drivers ≡ rest)
            × OfThird (λ lane. ((result.0).editor ≡ lane.door) × (result.1 ≡ first_end_of a.end (first_end_of b.end lane.end))) c }
    {
        let Some(c) = c else {
            unreachable!();
        };
        let end = first_end(a.end, first_end(b.end, c.end));
        let ports = ServerPorts {
            upper: a.door,
            lower: b.door,
            editor: c.door,
            drivers: rest,
        };
        (ports, end)
    }
}

impl<
    M: StepRelation<Event = PortEvent, Answer = PortAnswer> + Machine<D>,
    D: Drop,
    L: Listener,
    Di: Dialer,
    P: Pacer + Drop,
    C: Clock + Drop,
    R: Wait + Copy + Drop,
    W: Spawner<PortJob<M, D, L::S, L::K, Di, P, C, R>>,
> Parts<GatePorts<L, W>, DoorLane<M, D, L, Di, P, C, R, W>, W, DoorEnd>
    for GateHosts<M, D, Di, P, C, R> {
    ghost use Rattle.std.specs.Prelude.{◌≡◌, false};
    ghost use Rattle.port_events.specs.declared.event.Side.TheVariants.{Upper, Lower};
    ghost use Rattle.port_doors.specs.Serving.{first_end, GateReady};
    ghost use Rattle.port_doors.specs.declared.door.DoorEnd.TheVariants.{Closed};

    ghost three = { false };

    ghost may_part = { λ hosts ports. GateReady W.ready ports };

    ghost parts = { λ hosts ports a b c drivers. (a.door ≡ ports.upper) × (b.door ≡ ports.lower) × (drivers ≡ ports.drivers)
        × (a.host.at.port.side ≡ Upper) × (b.host.at.port.side ≡ Lower) };

    ghost gathers = { λ a b c drivers ports end. (ports.upper ≡ a.door) × (ports.lower ≡ b.door) × (ports.drivers ≡ drivers)
        × (end ≡ first_end a.end (first_end b.end Closed)) };

    fn part(
        self,
        whole: GatePorts<L, W>,
    ) -> (
        DoorLane<M, D, L, Di, P, C, R, W>,
        (
            DoorLane<M, D, L, Di, P, C, R, W>,
            (Option<DoorLane<M, D, L, Di, P, C, R, W>>, W),
        ),
    ) {
        let upper = new_lane(self.upper, whole.upper);
        let lower = new_lane(self.lower, whole.lower);
        (upper, (lower, (None, whole.drivers)))
    }

    fn gather(
        a: DoorLane<M, D, L, Di, P, C, R, W>,
        b: DoorLane<M, D, L, Di, P, C, R, W>,
        c: Option<DoorLane<M, D, L, Di, P, C, R, W>>,
        rest: W,
    ) -> (GatePorts<L, W>, DoorEnd)
        requires { IsThere false c }
        ensures { ((result.0).upper ≡ a.door) × ((result.0).lower ≡ b.door) × ((result.0).drivers ≡ rest)
            × (result.1 ≡ first_end_of a.end (first_end_of b.end closed_end)) }
    {
        let _none = c;
        let end = first_end(a.end, first_end(b.end, DoorEnd::Closed));
        let ports = GatePorts {
            upper: a.door,
            lower: b.door,
            drivers: rest,
        };
        (ports, end)
    }
}

/// Runs the loops of a server's doors side by side. It returns when each of them has ended.
pub(crate) fn run_server<
    M: StepRelation<Event = PortEvent, Answer = PortAnswer> + Machine<D> + Send,
    D: Drop + Send,
    L: Listener + Send,
    Di: Dialer + Send,
    P: Pacer + Drop + Send,
    C: Clock + Drop + Send,
    R: Threads + Wait + Copy + Drop + Send + Sync,
    W: Spawner<PortJob<M, D, L::S, L::K, Di, P, C, R>> + Send,
>(rt: &R, ports: &mut ServerPorts<L, W>, hosts: ServerHosts<M, D, Di, P, C, R>) -> DoorEnd
where
    L::S: Send,
    L::K: Send,
    Di::S: Send,
    Di::K: Send,
    requires { ServerReady W.ready ports.old }
    ensures drivers { (ports.new).drivers ≡ (ports.old).drivers }
    ensures ran { DoorsRan (server_seen L.coming L.faults W.took W.faults ports.old) (server_seen L.coming L.faults W.took W.faults ports.new) result }
{
    run_in_place(rt, ports, hosts)
}

/// The same of a gateway's.
pub(crate) fn run_gate<
    M: StepRelation<Event = PortEvent, Answer = PortAnswer> + Machine<D> + Send,
    D: Drop + Send,
    L: Listener + Send,
    Di: Dialer + Send,
    P: Pacer + Drop + Send,
    C: Clock + Drop + Send,
    R: Threads + Wait + Copy + Drop + Send + Sync,
    W: Spawner<PortJob<M, D, L::S, L::K, Di, P, C, R>> + Send,
>(rt: &R, ports: &mut GatePorts<L, W>, hosts: GateHosts<M, D, Di, P, C, R>) -> DoorEnd
where
    L::S: Send,
    L::K: Send,
    Di::S: Send,
    Di::K: Send,
    requires { GateReady W.ready ports.old }
    ensures drivers { (ports.new).drivers ≡ (ports.old).drivers }
    ensures ran { DoorsRan (gate_seen L.coming L.faults W.took W.faults ports.old) (gate_seen L.coming L.faults W.took W.faults ports.new) result }
{
    run_in_place(rt, ports, hosts)
}
