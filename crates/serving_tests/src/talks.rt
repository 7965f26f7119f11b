//! Connections that a server accepts.
ghost use Rattle.shared_machine.specs.Passes.{IsPassOf};

use crate::server::{Server, new_server};
use crate::sockets::{calling, hear, listening};
use crate::words::{end_number, end_word, port, wide};
use mos_fields::let_go;
use port_events::Side;
use port_links::{Link, Listener};
use port_session::{End, answer_port};
use port_tcp::{Common, Few, TcpPort, TcpSink, TcpSource};
use shared_machine::{Hub, Pass};
use std::alloc::Global;
use std::net::{Net, TcpListener, TcpStream};
use std::sync::{Arc, Wait};
use std::test::Fail;
use std::time::Clock;

/// A heartbeat, which is answered by the same text.
const BEAT: &str =
    "<mos><mosID>dev1</mosID><ncsID>ncs1</ncsID><messageID>7</messageID><heartbeat><time>2009-04-11T14:22:07Z</time></heartbeat></mos>";

/// roCreate, and its answer.
const CREATE: &str =
    "<mos><mosID>dev1</mosID><ncsID>ncs1</ncsID><messageID>8</messageID><roCreate><roID>R1</roID><roSlug>News</roSlug><story><storyID>A</storyID><item><itemID>1</itemID><objID>O1</objID><mosID>dev1</mosID></item></story></roCreate></mos>";

const CREATED: &str =
    "<mos><mosID>dev1</mosID><ncsID>ncs1</ncsID><messageID>8</messageID><roAck><roID>R1</roID><roStatus>OK</roStatus></roAck></mos>";

/// A message that is cut in its middle, of 59 code units.
const CUT: &str = "<mos><mosID>dev1</mosID><ncsID>ncs1</ncsID><messageID>9</me";

// Serves a connection.
fn served<R: Wait>(
    rt: &R,
    alloc: Global,
    hub: &Hub<Server>,
    pass: &mut Pass<Server>,
    link: Link<TcpSource, TcpSink>,
) -> Result<End, Fail>
    requires { IsPassOf hub.now pass.old }
    ensures { IsPassOf hub.now pass.new }
{
    let Link {
        number,
        side,
        mut source,
        mut sink,
    } = link;
    let port = port(alloc, side, number)?;
    Ok(answer_port(
        rt,
        alloc,
        hub,
        pass,
        port,
        &mut source,
        &mut sink,
        1_000_000,
    ))
}

// The same by a new server.
fn served_anew<R: Wait>(
    rt: &R,
    alloc: Global,
    link: Link<TcpSource, TcpSink>,
) -> Result<End, Fail> {
    let Ok((hub, mut pass)) = Hub::new(alloc, (new_server(alloc)?, ())) else {
        return Err(Fail::from("no hub"));
    };
    let end = served(rt, alloc, &hub, &mut pass, link);
    let (machine, ()) = hub.close(rt, pass);
    let_go(machine);
    end
}

// The only connection of a port.
fn accepted<L: Listener>(listener: L) -> Result<Link<L::S, L::K>, Fail> {
    let mut few = Few::new(listener, 1);
    match few.accept() {
        Ok(Some(link)) => match few.accept() {
            Ok(None) => Ok(link),
            _ => Err(Fail::from("another one")),
        },
        _ => Err(Fail::from("no connection")),
    }
}

// What comes of an editor's connection on which these bytes come: how it ends, with the number that its end tells; and whether these
// bytes are written.
fn comes_to<
    R: Net<Listener = TcpListener, Stream = TcpStream>
        + Clock
        + AllocGlobal
        + Eprint
        + Wait
        + Copy
        + Drop,
>(rt: &R, bytes: &[u8], wanted: &[u8]) -> Result<(&'static str, u64, bool), Fail> {
    let alloc = rt.alloc();
    let (listener, number) = listening(rt)?;
    let mut client = calling(rt, number, bytes)?;
    let common = Arc::new(alloc, Common::new(5))?;
    let link = accepted(TcpPort::new(*rt, listener, Side::Editor, common))?;
    let is_fifth = link.number == 5;
    let end = served_anew(rt, alloc, link)?;
    let heard = hear(alloc, &mut client)?;
    let so = is_fifth && heard.as_slice() == wanted;
    Ok((end_word(end), end_number(end), so))
}

// The bytes of these texts, one behind the other, but for the last so many.
fn bytes_of(alloc: Global, texts: &[&str], left_out: usize) -> Result<Vec<u8>, Fail> {
    let mut bytes = Vec::new(alloc);
    for text in texts {
        bytes.extend_from_slice(wide(alloc, text)?.as_slice())?;
    }
    let kept = bytes.len().saturating_sub(left_out);
    bytes.truncate(kept);
    Ok(bytes)
}

#[test]
fn a_heartbeat_and_an_order_are_answered(rt: HostRuntime) -> Result<(), Fail> {
    let alloc = rt.alloc();
    let bytes = bytes_of(alloc, &[BEAT, CREATE, BEAT], 0)?;
    let wanted = bytes_of(alloc, &[BEAT, CREATED, BEAT], 0)?;
    let came = comes_to(&rt, bytes.as_slice(), wanted.as_slice())?;
    assert_eq!(rt; came, ("Closed", 0, true));
    Ok(())
}

#[test]
fn a_connection_may_be_cut_in_the_middle_of_a_message(rt: HostRuntime) -> Result<(), Fail> {
    let alloc = rt.alloc();
    let bytes = bytes_of(alloc, &[BEAT, CREATE, CUT], 0)?;
    let wanted = bytes_of(alloc, &[BEAT, CREATED], 0)?;
    let came = comes_to(&rt, bytes.as_slice(), wanted.as_slice())?;
    assert_eq!(rt; came, ("Truncated", 118, true));
    let bytes = bytes_of(alloc, &[BEAT, CREATE, CUT], 1)?;
    let came = comes_to(&rt, bytes.as_slice(), wanted.as_slice())?;
    assert_eq!(rt; came, ("Truncated", 117, true));
    let came = comes_to(&rt, &[], &[])?;
    assert_eq!(rt; came, ("Closed", 0, true));
    Ok(())
}
