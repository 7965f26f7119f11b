//! The serving call of a server, with a thread for each worker.
ghost use Rattle.std.specs.Prelude.{◌≡◌};
ghost use Rattle.end_settings.specs.Devices.{AreDevices};
ghost use Rattle.thread_doors.specs.Listening.{CountsRise, server_listening};
ghost use Rattle.serve_ends.specs.Ends.{IsCaused, IsNotStarted, IsStarted};

use crate::beginning::{Begun, prepared};
use crate::starting::start_node;
use end_settings::ServerSettings;
use mos_io::{Clock, Pacer};
use port_links::{Dialer, Listener};
use rundown_log::Keeper;
use serve_ends::ServeEnd;
use std::alloc::Global;
use std::sync::Wait;
use std::thread::Threads;
use std::time::Clock as SystemsClock;
use thread_doors::{ServerListeners, serve_server_by_threads};

// What comes back where the server isn't started: nothing happened at the listeners.
fn unstarted<K: Keeper + Drop, L: Listener>(
    end: ServeEnd<K>,
    listeners: ServerListeners<L>,
) -> (ServeEnd<K>, ServerListeners<L>)
    requires { IsNotStarted end }
    ensures end { result.0 ≡ end }
    ensures caused { IsCaused (server_listening L.coming L.faults) listeners result.1 result.0 }
    ensures rises { CountsRise (server_listening L.coming L.faults listeners) (server_listening L.coming L.faults result.1) }
{
    (end, listeners)
}

/// Serves as the newsroom system of these settings, whose journal the keeper keeps: at three doors side by side, with two
/// workers that dial each device, and a thread for each worker.
///
/// The journal is loaded first. The call waits, and returns when each door's loop has ended; it doesn't wait for the workers.
/// The listeners come back as it leaves them.
///
/// # Ends
/// `StoreFault` only where the keeper failed and counted that, and `BadEntry` exactly at the first entry that isn't accepted
/// after those before it; the keeper comes back with both, and nothing happened at the listeners. `Closed` where each listener
/// said that none comes; `ListenFault` only where a listener's count of faults rose; `NoWorker` only where `refused` rose, the
/// count of the workers for which no thread could be made; `NoMemory` where memory runs out. No count falls.
pub fn ncs_serve_by_threads<
    K: Keeper + Drop + Send + 'static,
    L: Listener + Send,
    Di: Dialer + Send + 'static,
    P: Pacer + Drop + Send + 'static,
    C: Clock + Drop + Send + 'static,
    R: Threads + Wait + SystemsClock + Eprint + Copy + Drop + Send + Sync + 'static,
>(
    rt: &R,
    alloc: Global,
    settings: &ServerSettings,
    keeper: K,
    listeners: ServerListeners<L>,
    dialer: Di,
    pacer: P,
    clock: C,
) -> (ServeEnd<K>, ServerListeners<L>)
where
    L::S: Send + 'static,
    L::K: Send + 'static,
    Di::S: Send + 'static,
    Di::K: Send + 'static,
    requires { AreDevices settings.now.devices }
    ensures started { IsStarted K.kept K.faults keeper result.0 }
    ensures caused { IsCaused (server_listening L.coming L.faults) listeners result.1 result.0 }
    ensures rises { CountsRise (server_listening L.coming L.faults listeners) (server_listening L.coming L.faults result.1) }
{
    let Ok(begun) = prepared(alloc, settings) else {
        return unstarted(ServeEnd::NoMemory, listeners);
    };
    let Begun {
        names,
        ncs,
        peers,
        info,
    } = begun;
    let node = match start_node(alloc, keeper, settings.devices.len() as u32, info) {
        Ok(node) => node,
        Err(end) => return unstarted(end, listeners),
    };
    let ended = serve_server_by_threads(
        rt,
        alloc,
        (node, ()),
        names,
        ncs,
        &peers,
        settings.budget,
        listeners,
        dialer,
        pacer,
        clock,
    );
    (ServeEnd::of_door(ended.0), ended.1)
}
