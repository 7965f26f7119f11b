//! Ports of one program.
use crate::sockets::listening;
use mos_fields::let_go;
use mos_io::{Pacer, Sink};
use port_events::Side;
use port_links::{Link, Listener};
use port_tcp::{Common, SleepPacer, TcpPort};
use std::net::{Net, TcpListener, TcpStream};
use std::sync::{Arc, Wait};
use std::test::Fail;
use std::time::{Clock, Duration};

// The next connection of a port.
fn next_of<L: Listener>(port: &mut L) -> Result<Link<L::S, L::K>, Fail> {
    match port.accept() {
        Ok(Some(link)) => Ok(link),
        _ => Err(Fail::from("no connection")),
    }
}

// A connection that was served ends, and then one that no worker serves. Whether the second port is told of it, and then
// gives none any more.
fn end_together<
    R: Net<Listener = TcpListener, Stream = TcpStream>
        + Clock
        + AllocGlobal
        + Eprint
        + Wait
        + Copy
        + Drop,
>(rt: &R) -> Result<(bool, bool), Fail> {
    let common = Arc::new(rt.alloc(), Common::new(1))?;
    let (listener, upper_number) = listening(rt)?;
    let mut upper = TcpPort::new(*rt, listener, Side::Upper, Arc::try_clone(&common)?);
    let (listener, lower_number) = listening(rt)?;
    let other = listener.try_clone()?;
    let mut lower = TcpPort::new(*rt, listener, Side::Lower, Arc::try_clone(&common)?);
    let _first = TcpStream::connect(rt, ("127.0.0.1", upper_number))?;
    let mut served = next_of(&mut upper)?;
    let _ = served.sink.write_piece(&[]);
    let_go(served);
    let _second = TcpStream::connect(rt, ("127.0.0.1", lower_number))?;
    let mut served = next_of(&mut lower)?;
    let _ = served.sink.write_piece(&[]);
    let_go(served);
    let _third = TcpStream::connect(rt, ("127.0.0.1", upper_number))?;
    let_go(next_of(&mut upper)?);
    let short = Duration::from_millis(1);
    let mut pacer = SleepPacer::new(*rt, common, short, short, None);
    let _ = pacer.pause();
    other.set_nonblocking(true)?;
    let is_told = other.accept().is_ok();
    let is_over = lower.accept().is_err();
    Ok((is_told, is_over))
}

#[test]
fn a_connection_without_a_worker_ends_each_port(rt: HostRuntime) -> Result<(), Fail> {
    let came = end_together(&rt)?;
    assert_eq!(rt; came, (true, true));
    Ok(())
}
