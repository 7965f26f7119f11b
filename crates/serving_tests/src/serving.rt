//! A server whose connections wait for each other, and one to which none comes.
ghost use Rattle.std.specs.Prelude.{IfOk};
ghost use Rattle.end_settings.specs.Devices.{AreDevices};

use crate::dialer::Reaching;
use crate::ends::{Patient, Telling};
use crate::signs::{Sign, new_sign, share, wait_for};
use crate::words::{time, wide};
use end_settings::{ServerSettings, read_server_settings};
use mos_fields::{NoMemory, let_go, pair_ok};
use mos_io::{FixedClock, MemPacer, MemSource};
use port_events::Side;
use port_links::{Link, MemListener};
use rundown_log::MemKeeper;
use serve_ends::ServeEnd;
use server_serving::ncs_serve_by_threads;
use std::alloc::Global;
use std::collections::VecDeque;
use std::sync::Wait;
use std::test::Fail;
use std::thread::Threads;
use std::time::Clock;
use thread_doors::ServerListeners;

type Listening = MemListener<Patient, Telling>;

/// A server of one device.
const SETTINGS: &[u8] = b"ncs_id = 'ncs1'
log = 'log'
[[devices]]
mos_id = 'dev1'
host = 'gate'
upper = 7
lower = 8
";

/// A heartbeat of an editor.
const HEARTBEAT: &str =
    "<mos><mosID>e</mosID><ncsID>ncs1</ncsID><messageID>1</messageID><heartbeat><time>2000-01-01T00:00:00</time></heartbeat></mos>";

// The signs that a source waits for.
fn awaited(alloc: Global, signs: &[&Sign]) -> Result<Vec<Sign>, NoMemory> {
    let mut list = Vec::new(alloc);
    for sign in signs {
        list.push(share(sign)?)?;
    }
    Ok(list)
}

// A connection of an editor, which sends a heartbeat once these signs are given, and gives its own where it is answered.
fn editor(
    alloc: Global,
    number: u64,
    signs: &[&Sign],
    own: &Sign,
) -> Result<Link<Patient, Telling>, NoMemory> {
    let (bytes, awaited) = pair_ok(wide(alloc, HEARTBEAT), awaited(alloc, signs))?;
    let source = MemSource::new(bytes, Vec::new(alloc), Vec::new(alloc));
    let source = Patient::new(source, awaited);
    match share(own) {
        Ok(own) => Ok(Link {
            number,
            side: Side::Editor,
            source,
            sink: Telling::new(Some(own)),
        }),
        Err(fault) => {
            let_go(source);
            Err(fault)
        }
    }
}

// The settings of the server.
fn settings(alloc: Global) -> Result<ServerSettings, NoMemory>
    ensures { IfOk result (λ s. AreDevices s.devices) }
{
    match read_server_settings(alloc, SETTINGS) {
        Ok(settings) => Ok(settings),
        Err(_) => Err(NoMemory),
    }
}

// A listener of these connections.
fn listener(links: VecDeque<Link<Patient, Telling>>, alloc: Global) -> Listening {
    MemListener::new(links, Vec::new(alloc))
}

// Serves these editors. Each worker that dials makes one pause. Whether each listener said that no connection comes any more.
fn is_closed<R: Threads + Wait + Clock + Eprint + Copy + Drop + Send + Sync + 'static>(
    rt: &R,
    alloc: Global,
    editors: VecDeque<Link<Patient, Telling>>,
    beaten: &Sign,
) -> Result<bool, Fail> {
    let listeners = ServerListeners {
        upper: listener(VecDeque::new(alloc), alloc),
        lower: listener(VecDeque::new(alloc), alloc),
        editor: listener(editors, alloc),
        refused: 0,
    };
    let dialer = Reaching::new(alloc, 7, share(beaten)?);
    let settings = settings(alloc)?;
    let (end, listeners) = ncs_serve_by_threads(
        rt,
        alloc,
        &settings,
        MemKeeper::new(alloc, Vec::new(alloc), false),
        listeners,
        dialer,
        MemPacer::new(alloc, Vec::new(alloc)),
        FixedClock::new(time()),
    );
    let_go(listeners);
    let_go(settings);
    let is_closed = matches!(end, ServeEnd::Closed);
    let_go(end);
    Ok(is_closed)
}

// Two editors: the first speaks only once the second was answered and a heartbeat was written to the device. Whether both
// were answered.
fn are_answered<R: Threads + Wait + Clock + Eprint + Copy + Drop + Send + Sync + 'static>(
    rt: &R,
    alloc: Global,
    first: &Sign,
    second: &Sign,
    beaten: &Sign,
) -> Result<bool, Fail> {
    let mut editors = VecDeque::new(alloc);
    editors.push_back(editor(alloc, 1, &[second, beaten], first)?)?;
    editors.push_back(editor(alloc, 2, &[], second)?)?;
    let is_closed = is_closed(rt, alloc, editors, beaten)?;
    Ok(is_closed && wait_for(second) && wait_for(first))
}

#[test]
fn connections_are_served_side_by_side_while_devices_are_dialed(
    rt: HostRuntime,
) -> Result<(), Fail> {
    let alloc = rt.alloc();
    let first = new_sign(alloc)?;
    let second = new_sign(alloc)?;
    let beaten = new_sign(alloc)?;
    assert!(rt; are_answered(&rt, alloc, &first, &second, &beaten)?);
    Ok(())
}

#[test]
fn a_server_to_which_no_connection_comes_is_closed(rt: HostRuntime) -> Result<(), Fail> {
    let alloc = rt.alloc();
    let beaten = new_sign(alloc)?;
    assert!(rt; is_closed(&rt, alloc, VecDeque::new(alloc), &beaten)?);
    Ok(())
}
