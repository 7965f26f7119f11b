//! The two whole calls.
ghost use Rattle.std.specs.Prelude.{◌≡◌, [], IfOk, length};
ghost use Rattle.std.specs.Arc.{arc_value};
ghost use Rattle.shared_machine.specs.Passes.{IsPassOf};
ghost use Rattle.port_doors.specs.Serving.{Caused, GateReady, Served, ServerReady, gate_seen, server_seen};

use crate::calls::Peer;
use crate::door::DoorEnd;
use crate::drivers::{Outbound, start_devices, start_peer};
use crate::hosts::{gate_hosts, server_hosts};
use crate::ports::{GatePorts, ServerPorts};
use crate::run::{run_gate, run_server};
use mos_fields::{Id, NoMemory};
use mos_io::{Clock, Pacer};
use port_events::{PortAnswer, PortEvent};
use port_jobs::{Names, PortJob};
use port_links::{Dialer, Listener, Spawner};
use shared_machine::{Hub, Machine, Pass, StepRelation};
use std::alloc::Global;
use std::sync::{Arc, Wait};
use std::thread::Threads;

// A hub to be shared, and its first pass.
fn new_hub<M: StepRelation<Event = PortEvent, Answer = PortAnswer> + Machine<D>, D: Drop>(
    alloc: Global,
    machine: (M, D),
) -> Result<(Arc<Hub<M, D>>, Pass<M, D>), NoMemory>
    ensures { IfOk result (λ r. ((arc_value r.0).start ≡ machine) × IsPassOf (arc_value r.0) r.1 × (r.1.seen ≡ [])) }
{
    let Ok((hub, pass)) = Hub::new(alloc, machine) else {
        return Err(NoMemory);
    };
    let Ok(hub) = Arc::new(alloc, hub) else {
        return Err(NoMemory);
    };
    Ok((hub, pass))
}

/// Serves as a newsroom computer system: at three doors side by side, with two workers that dial each device.
///
/// A hub is made round the machine. Each device gets two workers, which call its upper and its lower port; they are
/// started through `drivers`, each with a twin of dialer, pacer and clock. One that can't be started ends the call before
/// any door's loop begins. A connection that comes at the upper or the lower door belongs to the device that its first
/// whole message names. The call returns when each door's loop has ended, and doesn't wait for the workers. Where several
/// ended otherwise than Closed, the end is that of the first in the order upper, lower, editor.
///
/// # Ends
/// Closed where each listener said that none comes; ListenFault only where a listener's count of faults rose; NoWorker only
/// where a spawner's did; NoMemory where memory runs out.
#[tactic(auto, using(crate::proofs::Causes::served_caused))]
pub fn serve_server<
    M: StepRelation<Event = PortEvent, Answer = PortAnswer> + Machine<D> + Send,
    D: Drop + Send,
    L: Listener + Send,
    Di: Dialer + Send,
    P: Pacer + Drop + Send,
    C: Clock + Drop + Send,
    R: Threads + Wait + Copy + Drop + Send + Sync,
    W: Spawner<PortJob<M, D, L::S, L::K, Di, P, C, R>> + Send,
>(
    rt: &R,
    alloc: Global,
    machine: (M, D),
    names: Arc<Names>,
    ncs: Id,
    peers: &[Peer],
    budget: u64,
    ports: &mut ServerPorts<L, W>,
    dialer: Di,
    pacer: P,
    clock: C,
) -> DoorEnd
where
    L::S: Send,
    L::K: Send,
    Di::S: Send,
    Di::K: Send,
    requires peers { length peers.now ≡ length (arc_value names) }
    requires ready { ServerReady W.ready ports.old × W.ready (ports.old).drivers }
    ensures served { Served (length peers.now) (server_seen L.coming L.faults W.took W.faults ports.old) (server_seen L.coming L.faults W.took W.faults ports.new) result }
    ensures caused { Caused (length peers.now) (server_seen L.coming L.faults W.took W.faults ports.old) (server_seen L.coming L.faults W.took W.faults ports.new) result }
{
    let Ok((hub, mut pass)) = new_hub(alloc, machine) else {
        return DoorEnd::NoMemory;
    };
    let outbound = Outbound {
        dialer,
        pacer,
        clock,
    };
    if let Err(end) = start_devices(
        rt,
        alloc,
        &hub,
        &mut pass,
        &names,
        &ncs,
        peers,
        budget,
        &outbound,
        &mut ports.drivers,
    ) {
        return end;
    }
    let Ok(hosts) = server_hosts(rt, alloc, &hub, &mut pass, &names, &ncs, budget) else {
        return DoorEnd::NoMemory;
    };
    run_server(rt, ports, hosts)
}

/// Serves as a device's gateway: at two doors side by side, with two workers that dial the newsroom computer system.
///
/// `mos` and `ncs` are the names of the two ends, the gateway's own and the server's. The rest is as `serve_server` does
/// it, but that the connections belong to no device of a list.
#[tactic(auto, using(crate::proofs::Causes::served_caused))]
pub fn serve_gate<
    M: StepRelation<Event = PortEvent, Answer = PortAnswer> + Machine<D> + Send,
    D: Drop + Send,
    L: Listener + Send,
    Di: Dialer + Send,
    P: Pacer + Drop + Send,
    C: Clock + Drop + Send,
    R: Threads + Wait + Copy + Drop + Send + Sync,
    W: Spawner<PortJob<M, D, L::S, L::K, Di, P, C, R>> + Send,
>(
    rt: &R,
    alloc: Global,
    machine: (M, D),
    mos: Id,
    ncs: Id,
    peer: &Peer,
    budget: u64,
    ports: &mut GatePorts<L, W>,
    dialer: Di,
    pacer: P,
    clock: C,
) -> DoorEnd
where
    L::S: Send,
    L::K: Send,
    Di::S: Send,
    Di::K: Send,
    requires { GateReady W.ready ports.old × W.ready (ports.old).drivers }
    ensures served { Served 1 (gate_seen L.coming L.faults W.took W.faults ports.old) (gate_seen L.coming L.faults W.took W.faults ports.new) result }
    ensures caused { Caused 1 (gate_seen L.coming L.faults W.took W.faults ports.old) (gate_seen L.coming L.faults W.took W.faults ports.new) result }
{
    let Ok((hub, mut pass)) = new_hub(alloc, machine) else {
        return DoorEnd::NoMemory;
    };
    let outbound = Outbound {
        dialer,
        pacer,
        clock,
    };
    if let Err(end) = start_peer(
        rt,
        alloc,
        &hub,
        &mut pass,
        None,
        &mos,
        &ncs,
        peer,
        budget,
        &outbound,
        &mut ports.drivers,
    ) {
        return end;
    }
    let Ok(hosts) = gate_hosts(rt, alloc, &hub, &mut pass, &mos, &ncs, budget) else {
        return DoorEnd::NoMemory;
    };
    run_gate(rt, ports, hosts)
}
