//! The two whole calls, with a thread for each worker.
ghost use Rattle.std.specs.Prelude.{◌≡◌, ◌≤◌, length};
ghost use Rattle.std.specs.Arc.{arc_value};
ghost use Rattle.mos_io.specs.Counts.{Rose};
ghost use Rattle.thread_doors.specs.Listening.{CausedByThreads, CountsRise, gate_listening, server_listening};

use crate::listeners::{GateListeners, ServerListeners};
use crate::told::ToldJob;
use mos_fields::Id;
use mos_io::{Clock, Failed, Pacer};
use port_doors::{Door, DoorEnd, GatePorts, Peer, ServerPorts, serve_gate, serve_server};
use port_events::{PortAnswer, PortEvent};
use port_jobs::{Names, PortJob};
use port_links::{Dialer, Listener};
use shared_machine::{Machine, StepRelation};
use std::alloc::Global;
use std::sync::atomic::AtomicBool;
use std::sync::{Arc, Wait};
use std::thread::Threads;
use std::time::Clock as SystemsClock;
use thread_starts::{StartSpawner, start_thread};

// The count after the faults of one spawner more.
fn count_refused<F: Drop>(refused: u64, spawner: &StartSpawner<F>) -> u64
    ensures rises { refused ≤ result }
    ensures rose { Rose 0 spawner.now.faults → Rose refused result }
{
    refused.saturating_add(spawner.faults())
}

// The listener of a door, with the count after the faults of its spawner.
fn leave_door<L: Drop, F: Drop>(door: Door<L, StartSpawner<F>>, refused: u64) -> (L, u64)
    ensures listener { result.0 ≡ door.listener }
    ensures rises { refused ≤ result.1 }
    ensures rose { Rose 0 (door.spawner).faults → Rose refused result.1 }
{
    let Door { listener, spawner } = door;
    (listener, count_refused(refused, &spawner))
}

// A server's listeners out of their doors, with the count after the faults of all four spawners.
#[tactic(auto, using(crate::proofs::Listenings::rose_twice))]
fn server_listeners<L: Drop, F: Drop>(
    ports: ServerPorts<L, StartSpawner<F>>,
    refused: u64,
) -> ServerListeners<L>
    ensures listeners { (result.upper ≡ (ports.upper).listener) × (result.lower ≡ (ports.lower).listener) × (result.editor ≡ (ports.editor).listener) }
    ensures rises { refused ≤ result.refused }
    ensures upper { Rose 0 ((ports.upper).spawner).faults → Rose refused result.refused }
    ensures lower { Rose 0 ((ports.lower).spawner).faults → Rose refused result.refused }
    ensures editor { Rose 0 ((ports.editor).spawner).faults → Rose refused result.refused }
    ensures drivers { Rose 0 (ports.drivers).faults → Rose refused result.refused }
{
    let ServerPorts {
        upper,
        lower,
        editor,
        drivers,
    } = ports;
    let (upper, by_upper) = leave_door(upper, refused);
    let (lower, by_lower) = leave_door(lower, by_upper);
    let (editor, by_editor) = leave_door(editor, by_lower);
    ServerListeners {
        upper,
        lower,
        editor,
        refused: count_refused(by_editor, &drivers),
    }
}

// A gateway's listeners out of their doors, with the count after the faults of all three spawners.
#[tactic(auto, using(crate::proofs::Listenings::rose_twice))]
fn gate_listeners<L: Drop, F: Drop>(
    ports: GatePorts<L, StartSpawner<F>>,
    refused: u64,
) -> GateListeners<L>
    ensures listeners { (result.upper ≡ (ports.upper).listener) × (result.lower ≡ (ports.lower).listener) }
    ensures rises { refused ≤ result.refused }
    ensures upper { Rose 0 ((ports.upper).spawner).faults → Rose refused result.refused }
    ensures lower { Rose 0 ((ports.lower).spawner).faults → Rose refused result.refused }
    ensures drivers { Rose 0 (ports.drivers).faults → Rose refused result.refused }
{
    let GatePorts {
        upper,
        lower,
        drivers,
    } = ports;
    let (upper, by_upper) = leave_door(upper, refused);
    let (lower, by_lower) = leave_door(lower, by_upper);
    GateListeners {
        upper,
        lower,
        refused: count_refused(by_lower, &drivers),
    }
}

/// Serves as `serve_server` does, with a thread for each worker. The listeners come back as the call leaves them. On standard
/// error it says whose each connection is that was accepted, why it ended, and that no thread can be made.
///
/// # Ends
/// Closed where each listener said that none comes; ListenFault only where a listener's count of faults rose; NoWorker only
/// where `refused` rose, the count of the workers for which no thread could be made; NoMemory where memory runs out. No
/// count falls.
pub fn serve_server_by_threads<
    M: StepRelation<Event = PortEvent, Answer = PortAnswer> + Machine<D> + Send + 'static,
    D: Drop + Send + 'static,
    L: Listener + Send,
    Di: Dialer + Send + 'static,
    P: Pacer + Drop + Send + 'static,
    C: Clock + Drop + Send + 'static,
    R: Threads + Wait + SystemsClock + Eprint + Copy + Drop + Send + Sync + 'static,
>(
    rt: &R,
    alloc: Global,
    machine: (M, D),
    names: Arc<Names>,
    ncs: Id,
    peers: &[Peer],
    budget: u64,
    listeners: ServerListeners<L>,
    dialer: Di,
    pacer: P,
    clock: C,
) -> (DoorEnd, ServerListeners<L>)
where
    L::S: Send + 'static,
    L::K: Send + 'static,
    Di::S: Send + 'static,
    Di::K: Send + 'static,
    requires { length peers.now ≡ length (arc_value names) }
    ensures caused { CausedByThreads (server_listening L.coming L.faults listeners) (server_listening L.coming L.faults result.1) result.0 }
    ensures rises { CountsRise (server_listening L.coming L.faults listeners) (server_listening L.coming L.faults result.1) }
{
    let short = AtomicBool::new(false);
    let start_job = |job: PortJob<M, D, L::S, L::K, Di, P, C, R>| -> Result<(), Failed> {
        start_thread(rt, alloc, &short, ToldJob { job })
    };
    let mut ports = ServerPorts {
        upper: Door {
            listener: listeners.upper,
            spawner: StartSpawner::new(&start_job),
        },
        lower: Door {
            listener: listeners.lower,
            spawner: StartSpawner::new(&start_job),
        },
        editor: Door {
            listener: listeners.editor,
            spawner: StartSpawner::new(&start_job),
        },
        drivers: StartSpawner::new(&start_job),
    };
    let end = serve_server(
        rt, alloc, machine, names, ncs, peers, budget, &mut ports, dialer, pacer, clock,
    );
    (end, server_listeners(ports, listeners.refused))
}

/// Serves as `serve_gate` does, with a thread for each worker. The listeners come back as the call leaves them, and the ends
/// are those of `serve_server_by_threads`. On standard error it says whose each connection is that was accepted, why it ended, and that no thread can be made.
pub fn serve_gate_by_threads<
    M: StepRelation<Event = PortEvent, Answer = PortAnswer> + Machine<D> + Send + 'static,
    D: Drop + Send + 'static,
    L: Listener + Send,
    Di: Dialer + Send + 'static,
    P: Pacer + Drop + Send + 'static,
    C: Clock + Drop + Send + 'static,
    R: Threads + Wait + SystemsClock + Eprint + Copy + Drop + Send + Sync + 'static,
>(
    rt: &R,
    alloc: Global,
    machine: (M, D),
    mos: Id,
    ncs: Id,
    peer: &Peer,
    budget: u64,
    listeners: GateListeners<L>,
    dialer: Di,
    pacer: P,
    clock: C,
) -> (DoorEnd, GateListeners<L>)
where
    L::S: Send + 'static,
    L::K: Send + 'static,
    Di::S: Send + 'static,
    Di::K: Send + 'static,
    ensures caused { CausedByThreads (gate_listening L.coming L.faults listeners) (gate_listening L.coming L.faults result.1) result.0 }
    ensures rises { CountsRise (gate_listening L.coming L.faults listeners) (gate_listening L.coming L.faults result.1) }
{
    let short = AtomicBool::new(false);
    let start_job = |job: PortJob<M, D, L::S, L::K, Di, P, C, R>| -> Result<(), Failed> {
        start_thread(rt, alloc, &short, ToldJob { job })
    };
    let mut ports = GatePorts {
        upper: Door {
            listener: listeners.upper,
            spawner: StartSpawner::new(&start_job),
        },
        lower: Door {
            listener: listeners.lower,
            spawner: StartSpawner::new(&start_job),
        },
        drivers: StartSpawner::new(&start_job),
    };
    let end = serve_gate(
        rt, alloc, machine, mos, ncs, peer, budget, &mut ports, dialer, pacer, clock,
    );
    (end, gate_listeners(ports, listeners.refused))
}
