//! Sockets of this machine.
use std::alloc::Global;
use std::io::{Read, Write};
use std::net::{Net, Shutdown, TcpListener, TcpStream};
use std::test::Fail;

/// A socket of this machine's own address that listens at a free port, and that port.
pub fn listening<R: Net<Listener = TcpListener, Stream = TcpStream>>(
    rt: &R,
) -> Result<(TcpListener, u16), Fail> {
    let listener = TcpListener::bind(rt, ("127.0.0.1", 0u16))?;
    let port = listener.local_addr()?.port();
    Ok((listener, port))
}

/// A connection to the port, on which these bytes go out and then no more.
pub fn calling<R: Net<Listener = TcpListener, Stream = TcpStream>>(
    rt: &R,
    port: u16,
    bytes: &[u8],
) -> Result<TcpStream, Fail> {
    let mut stream = TcpStream::connect(rt, ("127.0.0.1", port))?;
    say(&mut stream, bytes)?;
    Ok(stream)
}

/// These bytes go out, and then no more.
pub fn say(stream: &mut TcpStream, bytes: &[u8]) -> Result<(), Fail> {
    stream.write_all(bytes)?;
    stream.shutdown(Shutdown::Write)?;
    Ok(())
}

/// What comes on it to its end.
pub fn hear(alloc: Global, stream: &mut TcpStream) -> Result<Vec<u8>, Fail> {
    let mut out = Vec::new(alloc);
    let mut room = [0u8; 256];
    for _ in 0..10_000u32 {
        let count = stream.read(&mut room)?;
        if count == 0 {
            return Ok(out);
        }
        out.extend_from_slice(&room[..count])?;
    }
    Err(Fail::from("no end"))
}
