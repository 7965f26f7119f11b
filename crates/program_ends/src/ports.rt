//! The ports of this machine, and the pauses of its workers.
ghost use Rattle.std.specs.Prelude.{◌≡◌, IfErr, IfOk};
ghost use Rattle.port_tcp.specs.Pauses.{NeverStops, every as every_of, length as length_of};
ghost use Rattle.port_tcp.specs.Sides.{side_of};
ghost use Rattle.program_ends.specs.declared.program_end.ProgramEnd.TheVariants.{NoPort};

use crate::program_end::ProgramEnd;
use crate::why::Why;
use mos_fields::NoMemory;
use port_events::Side;
use port_tcp::{Common, SleepPacer, TcpDialer, TcpPort};
use std::alloc::Global;
use std::net::{IpAddr, Net, TcpListener, TcpStream};
use std::sync::{Arc, Wait};
use std::time::{Clock, Duration};

// How long a worker that dials pauses at most before it asks for what is next, in milliseconds.
const PAUSE: u64 = 1_000;

// For so long no heartbeat was sent before a worker that dials sends one, in seconds.
const BEAT: u64 = 5;

// So long it awaits an answer, in seconds.
const PATIENCE: u64 = 30;

/// The port of this number, at this address of this machine, for connections at this side. The only error is `NoPort`, where it
/// can't be opened; `why` then has the line that says why.
pub fn port_at<
    R: Net<Listener = TcpListener, Stream = TcpStream> + Clock + AllocGlobal + Eprint + Copy + Drop,
>(
    rt: R,
    address: IpAddr,
    port: u16,
    side: Side,
    common: Arc<Common>,
    why: &mut Why,
) -> Result<TcpPort<R>, ProgramEnd>
    ensures fault { IfErr result (λ end. end ≡ NoPort port) }
    ensures side { IfOk result (λ opened. side_of opened ≡ side) }
{
    match TcpListener::bind(&rt, (address, port)) {
        Ok(listener) => Ok(TcpPort::new(rt, listener, side, common)),
        Err(fault) => {
            why.tell_port(rt.alloc(), port, side, fault.kind());
            Err(ProgramEnd::NoPort(port))
        }
    }
}

/// The pauses of a program's workers: of a second at most, and less where something may be due; with a heartbeat where none was
/// for five seconds, and where a connection came or ended. They never stop.
pub fn pacer<R: Net<Stream = TcpStream> + Clock + Wait + Copy + Drop>(
    rt: R,
    common: Arc<Common>,
) -> SleepPacer<R>
    ensures length { length_of result ≡ 1000000000 }
    ensures every { every_of result ≡ 5000000000 }
    ensures stop { NeverStops result }
{
    SleepPacer::new(
        rt,
        common,
        Duration::from_millis(PAUSE),
        Duration::from_secs(BEAT),
        None,
    )
}

/// What opens the connections of a program's workers. They await an answer for half a minute.
pub fn dialer<R: Net<Stream = TcpStream> + Clock + Wait + Eprint + Copy + Drop>(
    rt: R,
    alloc: Global,
    common: Arc<Common>,
) -> Result<TcpDialer<R>, NoMemory> {
    TcpDialer::new(
        rt,
        alloc,
        Side::Upper,
        common,
        Some(Duration::from_secs(PATIENCE)),
    )
}
