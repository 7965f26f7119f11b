//! Connections that a server opens.
ghost use Rattle.shared_machine.specs.Passes.{IsPassOf};

use crate::server::{Server, new_server};
use crate::sockets::{hear, listening, say};
use crate::words::{end_word, port, text, time, wide};
use mos_fields::let_go;
use mos_io::{FixedClock, MemPacer, Pace};
use port_events::Side;
use port_links::{Dialer, Link, Place};
use port_session::{End, drive_port};
use port_tcp::{Common, TcpDialer, TcpSink, TcpSource};
use shared_machine::{Hub, Pass};
use std::alloc::Global;
use std::net::{Net, TcpListener, TcpStream};
use std::sync::{Arc, Wait};
use std::test::Fail;
use std::time::Clock;

/// The server's first message, which is answered by the same text, and its second one.
const GREETING: &str =
    "<mos><mosID>dev1</mosID><ncsID>ncs1</ncsID><messageID>1</messageID><heartbeat><time>2000-01-01T00:00:00</time></heartbeat></mos>";

const BEAT: &str =
    "<mos><mosID>dev1</mosID><ncsID>ncs1</ncsID><messageID>2</messageID><heartbeat><time>2000-01-01T00:00:00</time></heartbeat></mos>";

fn place(alloc: Global, port: u16) -> Result<Place, Fail> {
    Ok(Place {
        host: text(alloc, "127.0.0.1")?,
        port,
    })
}

fn dialer<R: Net<Stream = TcpStream> + Clock + Wait + Eprint + Copy + Drop>(
    rt: &R,
    alloc: Global,
) -> Result<TcpDialer<R>, Fail> {
    let common = Arc::new(alloc, Common::new(8))?;
    Ok(TcpDialer::new(*rt, alloc, Side::Upper, common, None)?)
}

// Drives a connection, with one pause, after which a heartbeat is asked for.
fn driven<R: Wait>(
    rt: &R,
    alloc: Global,
    hub: &Hub<Server>,
    pass: &mut Pass<Server>,
    link: Link<TcpSource, TcpSink>,
) -> Result<End, Fail>
    requires { IsPassOf hub.now pass.old }
    ensures { IsPassOf hub.now pass.new }
{
    let Link {
        number,
        side,
        mut source,
        mut sink,
    } = link;
    let paces = Vec::from_slice(alloc, &[Pace::Beat])?;
    let port = port(alloc, side, number)?;
    let mut pacer = MemPacer::new(alloc, paces);
    let mut clock = FixedClock::new(time());
    Ok(drive_port(
        rt,
        alloc,
        hub,
        pass,
        port,
        &mut source,
        &mut sink,
        &mut pacer,
        &mut clock,
        1_000_000,
    ))
}

// The same by a new server.
fn driven_anew<R: Wait>(
    rt: &R,
    alloc: Global,
    link: Link<TcpSource, TcpSink>,
) -> Result<End, Fail> {
    let Ok((hub, mut pass)) = Hub::new(alloc, (new_server(alloc)?, ())) else {
        return Err(Fail::from("no hub"));
    };
    let end = driven(rt, alloc, &hub, &mut pass, link);
    let (machine, ()) = hub.close(rt, pass);
    let_go(machine);
    end
}

// How a connection ends that is dialed, whose peer answers the first message, and whether these bytes are written on it.
fn comes_to<
    R: Net<Listener = TcpListener, Stream = TcpStream> + Clock + Eprint + Wait + Copy + Drop,
>(rt: &R, alloc: Global, wanted: &[u8]) -> Result<(&'static str, bool), Fail> {
    let (listener, number) = listening(rt)?;
    let mut dialer = dialer(rt, alloc)?;
    let place = place(alloc, number)?;
    let Ok(link) = dialer.dial(&place) else {
        return Ok(("not dialed", false));
    };
    let (mut peer, _) = listener.accept()?;
    say(&mut peer, wide(alloc, GREETING)?.as_slice())?;
    let is_eighth = link.number == 8;
    let end = driven_anew(rt, alloc, link)?;
    let heard = hear(alloc, &mut peer)?;
    Ok((end_word(end), is_eighth && heard.as_slice() == wanted))
}

#[test]
fn a_greeting_is_sent_and_its_answer_is_read(rt: HostRuntime) -> Result<(), Fail> {
    let alloc = rt.alloc();
    let mut wanted = wide(alloc, GREETING)?;
    wanted.extend_from_slice(wide(alloc, BEAT)?.as_slice())?;
    let came = comes_to(&rt, alloc, wanted.as_slice())?;
    assert_eq!(rt; came, ("Closed", true));
    Ok(())
}

// Whether a dial to a port fails at which none listens any more.
fn fails<R: Net<Listener = TcpListener, Stream = TcpStream> + Clock + Wait + Eprint + Copy + Drop>(
    rt: &R,
    alloc: Global,
) -> Result<bool, Fail> {
    let (listener, number) = listening(rt)?;
    let_go(listener);
    let mut dialer = dialer(rt, alloc)?;
    let place = place(alloc, number)?;
    Ok(dialer.dial(&place).is_err())
}

#[test]
fn a_dial_to_a_port_at_which_none_listens_fails(rt: HostRuntime) -> Result<(), Fail> {
    assert!(rt; fails(&rt, rt.alloc())?);
    Ok(())
}
