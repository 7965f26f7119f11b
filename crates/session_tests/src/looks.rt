//! Looks at the first message of a connection.
ghost use Rattle.port_looking.specs.Looking.{AreNames};

use crate::again::rest_of;
use crate::names::three_names;
use crate::texts::{bytes_of, pieces_of};
use mos_fields::{Ids, NoMemory, let_go};
use mos_io::MemSource;
use port_fronts::Fronted;
use port_looking::{LookFault, look};
use std::alloc::Global;
use std::test::Fail;

// What a look comes to.
#[derive(Clone, Copy, Debug, PartialEq, Eq)]
enum Seen {
    // The device, and how many bytes were read by then.
    Device(u32, usize),
    // A read failed with so many bytes left.
    ReadFault(usize),
    NoMemory,
    // Not all was given again.
    Lost,
}

// How a source gives its bytes.
#[derive(Clone, Copy)]
struct Way<'a> {
    // The sizes of the pieces.
    pieces: &'a [usize],
    // The calls that fail.
    fails: &'a [u64],
    budget: u64,
}

const PLAIN: Way<'static> = Way {
    pieces: &[],
    fails: &[],
    budget: 1_000_000,
};

fn source_of(alloc: Global, bytes: &[u8], way: &Way<'_>) -> Result<MemSource, NoMemory> {
    let bytes = Vec::from_slice(alloc, bytes)?;
    let pieces = Vec::from_slice(alloc, way.pieces)?;
    let fails = Vec::from_slice(alloc, way.fails)?;
    Ok(MemSource::new(bytes, pieces, fails))
}

// The device, where all the bytes are given again.
fn seen_again(
    alloc: Global,
    device: u32,
    found: Fronted<MemSource>,
    bytes: &[u8],
) -> Result<Seen, Fail> {
    let mut found = found;
    let given = rest_of(alloc, &mut found, 64, &[])?;
    if given.as_slice() != bytes {
        return Ok(Seen::Lost);
    }
    Ok(Seen::Device(device, 0))
}

// How many bytes were read of the source by then.
fn count_read(alloc: Global, found: Fronted<MemSource>, bytes: &[u8]) -> Result<usize, Fail> {
    let left = rest_of(alloc, &mut found.into_source(), 64, &[])?;
    Ok(bytes.len().saturating_sub(left.len()))
}

// Looks, and reads on.
fn look_and_read(alloc: Global, names: &Ids, bytes: &[u8], way: &Way<'_>) -> Result<Seen, Fail>
    requires { AreNames names.now }
{
    let source = source_of(alloc, bytes, way)?;
    match look(alloc, source, names, way.budget) {
        Ok((device, found)) => seen_again(alloc, device, found, bytes),
        Err(LookFault::ReadFault { source }) => left_behind(alloc, source),
        Err(LookFault::NoMemory { source }) => {
            let_go(source);
            Ok(Seen::NoMemory)
        }
    }
}

// Looks, and takes the source back.
fn look_and_leave(
    alloc: Global,
    names: &Ids,
    bytes: &[u8],
    way: &Way<'_>,
    first: Seen,
) -> Result<Seen, Fail>
    requires { AreNames names.now }
{
    let source = source_of(alloc, bytes, way)?;
    match look(alloc, source, names, way.budget) {
        Ok((device, found)) => {
            let count = count_read(alloc, found, bytes)?;
            Ok(with_count(first, device, count))
        }
        Err(fault) => {
            let_go(fault);
            Ok(first)
        }
    }
}

// Looks twice: once to read on, and once to take the source back.
fn see(alloc: Global, names: &Ids, bytes: &[u8], way: &Way<'_>) -> Result<Seen, Fail>
    requires { AreNames names.now }
{
    let first = look_and_read(alloc, names, bytes, way)?;
    look_and_leave(alloc, names, bytes, way, first)
}

fn with_count(first: Seen, device: u32, count: usize) -> Seen {
    if first == Seen::Device(device, 0) {
        return Seen::Device(device, count);
    }
    Seen::Lost
}

fn left_behind(alloc: Global, source: MemSource) -> Result<Seen, Fail> {
    let mut source = source;
    let left = rest_of(alloc, &mut source, 64, &[])?;
    Ok(Seen::ReadFault(left.len()))
}

// On each line a connection, the device that it belongs to, and how many bytes are read where they come one by one.
const ROWS: &str = "a 0 196
b 1 196
c 2 196
bc 1 196
cb 2 196
x 0 196
xb 0 196
B 0 196
1b 0 196
_c 2 202
cccc 2 196
b! 1 196
b( 1 196
b? 1 196
( 0 96
(_ 0 102
! 0 54
!b 0 54
_ 0 6
? 0 1
_? 0 7";

// Whether a connection is seen so, in pieces of this size.
fn is_seen(
    alloc: Global,
    names: &Ids,
    letters: &str,
    piece: usize,
    wanted: &str,
) -> Result<bool, Fail>
    requires { AreNames names.now }
{
    let bytes = bytes_of(alloc, letters)?;
    let pieces = pieces_of(alloc, piece)?;
    let way = Way {
        pieces: pieces.as_slice(),
        ..PLAIN
    };
    match see(alloc, names, bytes.as_slice(), &way)? {
        Seen::Device(device, count) => {
            let seen = format!(in alloc; "{device} {count}")?;
            Ok(if piece == 1 {
                seen.as_str() == wanted
            } else {
                wanted.as_bytes().first() == seen.as_bytes().first()
            })
        }
        _ => Ok(false),
    }
}

#[test]
fn the_first_whole_message_says_which_device(rt: HostRuntime) -> Result<(), Fail> {
    let alloc = rt.alloc();
    let names = three_names(alloc)?;
    for row in ROWS.lines() {
        let (letters, wanted) = row.split_once(" ").ok_or("no row")?;
        for piece in [1, 2, 3, 7, 195, 196, 197, 100_000] {
            let is_seen = is_seen(alloc, &names, letters, piece, wanted)?;
            assert!(rt; is_seen, "{row} in pieces of {piece}");
        }
    }
    let seen = see(alloc, &names, &[], &PLAIN)?;
    assert_eq!(rt; seen, Seen::Device(0, 0));
    Ok(())
}

#[test]
fn a_budget_may_end_before_the_first_message_does(rt: HostRuntime) -> Result<(), Fail> {
    let alloc = rt.alloc();
    let names = three_names(alloc)?;
    let bytes = bytes_of(alloc, "cb")?;
    for (budget, device, count) in [
        (0, 0, 0),
        (1, 0, 1),
        (195, 0, 195),
        (196, 2, 196),
        (197, 2, 197),
        (392, 2, 392),
        (393, 2, 392),
    ] {
        let way = Way { budget, ..PLAIN };
        let seen = see(alloc, &names, bytes.as_slice(), &way)?;
        assert_eq!(rt; seen, Seen::Device(device, count), "by {budget}");
    }
    Ok(())
}

#[test]
fn a_read_that_fails_gives_the_rest_of_the_source_back(rt: HostRuntime) -> Result<(), Fail> {
    let alloc = rt.alloc();
    let names = three_names(alloc)?;
    let bytes = bytes_of(alloc, "cb")?;
    for (first, fails, wanted) in [
        (100, 0, Seen::ReadFault(392)),
        (100, 1, Seen::ReadFault(292)),
        (195, 1, Seen::ReadFault(197)),
        (196, 1, Seen::Device(2, 196)),
    ] {
        let way = Way {
            pieces: &[first, 96, 200],
            fails: &[fails],
            ..PLAIN
        };
        let seen = see(alloc, &names, bytes.as_slice(), &way)?;
        assert_eq!(rt; seen, wanted, "{first} bytes, then call {fails}");
    }
    Ok(())
}
