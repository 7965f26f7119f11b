//! What sources give.
use mos_fields::NoMemory;
use mos_io::{Failed, MemSource, Source};
use port_fronts::Fronted;
use std::alloc::Global;
use std::test::Fail;

// Puts what one read gives behind the others. Whether it gave something.
fn read_once<S: Source>(
    source: &mut S,
    room: usize,
    out: &mut Vec<u8>,
) -> Result<Result<bool, Failed>, NoMemory> {
    let mut buffer = [0u8; 64];
    let room = room.clamp(1, 64);
    match source.read(&mut buffer[..room]) {
        Ok(count) => {
            out.extend_from_slice(&buffer[..count])?;
            Ok(Ok(count > 0))
        }
        Err(failed) => Ok(Err(failed)),
    }
}

/// All that a source still gives, read by so many bytes, of 1 to 64, at a time; with this mark where a read failed.
pub fn rest_of<S: Source>(
    alloc: Global,
    source: &mut S,
    room: usize,
    mark: &[u8],
) -> Result<Vec<u8>, Fail> {
    let mut out = Vec::new(alloc);
    for _ in 0..10_000u32 {
        match read_once(source, room, &mut out)? {
            Ok(true) => {}
            Ok(false) => return Ok(out),
            Err(_) => out.extend_from_slice(mark)?,
        }
    }
    Err(Fail::from(std::fmt::Error))
}

// A source whose second call fails, which gives three bytes at a time.
fn weak(alloc: Global) -> Result<MemSource, NoMemory> {
    let bytes = Vec::from_slice(alloc, b"defghi")?;
    let pieces = Vec::from_slice(alloc, &[3usize, 3, 3])?;
    let fails = Vec::from_slice(alloc, &[1u64])?;
    Ok(MemSource::new(bytes, pieces, fails))
}

fn fronted(alloc: Global, front: &[u8]) -> Result<Fronted<MemSource>, NoMemory> {
    let front = Vec::from_slice(alloc, front)?;
    Ok(Fronted::new(alloc, front, weak(alloc)?))
}

// What is left of the source once so many bytes were read in front of it, one by one.
fn left_behind(alloc: Global, count: u32) -> Result<Vec<u8>, Fail> {
    let mut source = fronted(alloc, b"abc")?;
    let mut out = Vec::new(alloc);
    for _ in 0..count {
        let _ = read_once(&mut source, 1, &mut out)?;
    }
    rest_of(alloc, &mut source.into_source(), 64, b"F")
}

#[test]
fn bytes_in_front_are_given_before_those_of_the_source(rt: HostRuntime) -> Result<(), Fail> {
    let alloc = rt.alloc();
    for (room, wanted) in [
        (1, "abcdFefghi"),
        (2, "abcdeFfghi"),
        (3, "abcdefFghi"),
        (64, "abcdefFghi"),
    ] {
        let mut source = fronted(alloc, b"abc")?;
        let given = rest_of(alloc, &mut source, room, b"F")?;
        assert_eq!(rt; given.as_slice(), wanted.as_bytes(), "by {room}");
    }
    let mut source = fronted(alloc, b"")?;
    let given = rest_of(alloc, &mut source, 64, b"F")?;
    assert_eq!(rt; given.as_slice(), b"defFghi".as_slice());
    Ok(())
}

#[test]
fn the_source_comes_back_without_what_stood_in_front(rt: HostRuntime) -> Result<(), Fail> {
    let alloc = rt.alloc();
    for count in 0..4u32 {
        let left = left_behind(alloc, count)?;
        assert_eq!(rt; left.as_slice(), b"defFghi".as_slice(), "behind {count}");
    }
    let left = left_behind(alloc, 4)?;
    assert_eq!(rt; left.as_slice(), b"Fefghi".as_slice());
    Ok(())
}
