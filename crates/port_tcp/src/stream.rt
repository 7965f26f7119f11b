//! Connections over TCP.
ghost use Rattle.std.specs.Prelude.{◌≡◌, IfOk};
ghost use Rattle.std.specs.Duration.{as_nanos};
ghost use Rattle.std.specs.Option.{option_map};
ghost use Rattle.port_tcp.specs.Sides.{quiet_nanos};

use crate::common::{Common, Leaves};
use mos_fields::NoMemory;
use mos_io::{StdSink, StdSource};
use port_events::Side;
use port_links::Link;
use std::alloc::Global;
use std::io;
use std::io::{ErrorKind, Read, Write};
use std::net::TcpStream;
use std::sync::Arc;
use std::sync::atomic::{AtomicBool, Ordering};
use std::time::Duration;

// On a connection that others opened, and no editor did, something is to come within so long, in seconds.
const QUIET: u64 = 600;

/// What comes on a connection over TCP. The bytes aren't observable.
pub type TcpSource = StdSource<TcpHalf>;

/// What goes out on a connection over TCP. The bytes aren't observable.
pub type TcpSink = StdSink<TcpHalf>;

// A stream, which is closed where both its halves were let go.
#[derive(Drop)]
struct Whole {
    stream: TcpStream,
    // tells the end of the connection, where it is one that others opened
    leaves: Option<Leaves>,
}

impl Whole {
    // A worker is to serve the connection from now on.
    fn awaits_worker(&self) {
        if let Some(leaves) = &self.leaves {
            leaves.awaits_worker();
        }
    }

    // A worker serves it.
    fn serve(&self) {
        if let Some(leaves) = &self.leaves {
            leaves.serve();
        }
    }

    // A piece was written.
    fn moved(&self) {
        if let Some(leaves) = &self.leaves {
            leaves.moved();
        }
    }
}

/// The source's half of a stream, or the sink's: both share one descriptor.
///
/// A connection that others opened, and that is let go before anything was read or written on it, not even an empty piece,
/// had no worker. Its port has ended then, and all ports of the program with it.
#[derive(Drop)]
pub struct TcpHalf {
    whole: Arc<Whole>,
    // whether the peer was silent for too long, where it is one that this machine opened
    late: Option<Arc<AtomicBool>>,
}

impl TcpHalf {
    // Notes that the peer was silent for too long.
    fn note_late(&self) {
        if let Some(late) = &self.late {
            late.store(true, Ordering::SeqCst);
        }
    }
}

impl Read for TcpHalf {
    fn read(&mut self, buf: &mut [u8]) -> io::Result<usize> {
        self.whole.serve();
        let mut stream = &self.whole.stream;
        let outcome = stream.read(buf);
        if let Err(fault) = &outcome {
            if fault.kind() == ErrorKind::WouldBlock {
                self.note_late();
            }
        }
        outcome
    }
}

impl Write for TcpHalf {
    fn write(&mut self, buf: &[u8]) -> io::Result<usize> {
        let mut stream = &self.whole.stream;
        stream.write(buf)
    }

    fn flush(&mut self) -> io::Result<()> {
        self.whole.serve();
        self.whole.moved();
        Ok(())
    }
}

// The connection of the next number over a stream.
fn link_over(
    alloc: Global,
    number: u64,
    side: Side,
    whole: Whole,
    late: Option<Arc<AtomicBool>>,
) -> Result<Link<TcpSource, TcpSink>, NoMemory>
    ensures { IfOk result (λ link. link.side ≡ side) }
{
    let whole = Arc::new(alloc, whole)?;
    let other = Arc::try_clone(&whole)?;
    whole.awaits_worker();
    Ok(Link {
        number,
        side,
        source: StdSource::new(TcpHalf { whole: other, late }),
        sink: StdSink::new(TcpHalf { whole, late: None }),
    })
}

/// A connection of the next number that this machine opened. What is written goes out at once, without waiting for more. A
/// read that waits for longer than `patience` fails, and sets `late`; so does a write, without that. The only error is that
/// memory runs out; the connection is then closed.
pub(crate) fn opened_link(
    alloc: Global,
    common: &Common,
    side: Side,
    stream: TcpStream,
    patience: Option<Duration>,
    late: Arc<AtomicBool>,
) -> Result<Link<TcpSource, TcpSink>, NoMemory>
    ensures { IfOk result (λ link. link.side ≡ side) }
{
    // A connection that gathers what it sends is slower and no less right, and so is one that waits for longer.
    let _ = stream.set_nodelay(true);
    let _ = stream.set_read_timeout(patience);
    let _ = stream.set_write_timeout(patience);
    let whole = Whole {
        stream,
        leaves: None,
    };
    link_over(alloc, common.next_number(), side, whole, Some(late))
}

// For how long nothing may come on a connection at this side that others opened; an editor's may be silent for ever.
fn quiet_time(side: Side) -> Option<Duration>
    ensures { option_map as_nanos result ≡ quiet_nanos side }
{
    match side {
        Side::Upper | Side::Lower => Some(Duration::from_secs(QUIET)),
        Side::Editor => None,
    }
}

/// The same for a connection that others opened. A read fails on which nothing comes for ten minutes, unless it is an editor's.
/// Pauses end early where it comes and where it ends, unless it is an editor's, and where a piece was written on it.
pub(crate) fn accepted_link(
    alloc: Global,
    common: &Arc<Common>,
    side: Side,
    stream: TcpStream,
) -> Result<Link<TcpSource, TcpSink>, NoMemory>
    ensures { IfOk result (λ link. link.side ≡ side) }
{
    let _ = stream.set_nodelay(true);
    let _ = stream.set_read_timeout(quiet_time(side));
    let leaves = Leaves::new(Arc::try_clone(common)?, side);
    let whole = Whole {
        stream,
        leaves: Some(leaves),
    };
    link_over(alloc, common.next_number(), side, whole, None)
}
