//! Connections, each of whose reads and each of whose writes fails in turn.
ghost use Rattle.shared_machine.specs.Passes.{IsPassOf};

use crate::names::id;
use crate::noting::Noting;
use crate::texts::{bytes_of, end_number, end_word};
use mos_fields::{FieldFault, NoMemory, let_go};
use mos_io::{MemSink, MemSource};
use port_events::Side;
use port_session::{End, Port, answer_port};
use shared_machine::{Hub, Pass};
use std::alloc::Global;
use std::sync::Wait;
use std::test::Fail;

/// What comes on a connection in pieces of 50 bytes: the letters of its text, how often it is read and written where nothing
/// fails, and how it ends then.
const ROWS: &str = " 1 0 Closed 0
m 6 1 Closed 0
mm 11 2 Closed 0
mxm 16 3 Closed 0
( 3 0 Truncated 96
m( 8 1 Truncated 96
0 1 0 BadMessage 5
m0 6 1 BadMessage 127
m! 6 1 BadMessage 143
m# 5 1 BadMessage 122
mm# 10 2 BadMessage 244";

/// Pieces of 50 bytes.
const FIFTIES: [usize; 40] = [50; 40];

// Which reads and which writes fail.
#[derive(Clone, Copy)]
struct Fails<'a> {
    reads: &'a [u64],
    writes: &'a [u64],
}

fn port(alloc: Global) -> Result<Port, FieldFault> {
    let mos = id(alloc, 'm')?;
    let ncs = id(alloc, 'n')?;
    Ok(Port {
        side: Side::Upper,
        device: None,
        link: 5,
        mos,
        ncs,
    })
}

fn source(alloc: Global, letters: &str, fails: Fails<'_>) -> Result<MemSource, NoMemory> {
    let bytes = bytes_of(alloc, letters.as_bytes())?;
    let pieces = Vec::from_slice(alloc, &FIFTIES)?;
    let fails = Vec::from_slice(alloc, fails.reads)?;
    Ok(MemSource::new(bytes, pieces, fails))
}

// Answers the connection.
fn answered<R: Wait>(
    rt: &R,
    alloc: Global,
    hub: &Hub<Noting>,
    pass: &mut Pass<Noting>,
    letters: &str,
    fails: Fails<'_>,
) -> Result<End, Fail>
    requires { IsPassOf hub.now pass.old }
    ensures { IsPassOf hub.now pass.new }
{
    let writes = Vec::from_slice(alloc, fails.writes)?;
    let port = port(alloc)?;
    let mut from = source(alloc, letters, fails)?;
    let mut to = MemSink::new(alloc, writes);
    Ok(answer_port(rt, alloc, hub, pass, port, &mut from, &mut to, 1_000_000))
}

// Whether the last note is of an `I`, and no other is.
fn ends_once(log: &[u8]) -> bool {
    match log {
        [before @ .., b'I', _, _, _, b' '] => !before.contains(&b'I'),
        _ => false,
    }
}

// How the connection ends, with the number that its end tells; or that its end was no event, or not one alone.
fn seen<R: Wait>(
    rt: &R,
    alloc: Global,
    letters: &str,
    fails: Fails<'_>,
) -> Result<(&'static str, u64), Fail> {
    let Ok((hub, mut pass)) = Hub::new(alloc, (Noting::new(alloc), ())) else {
        return Ok(("no hub", 0));
    };
    let end = answered(rt, alloc, &hub, &mut pass, letters, fails);
    let (machine, ()) = hub.close(rt, pass);
    let once = ends_once(machine.log.as_slice());
    let_go(machine);
    let end = end?;
    if once {
        Ok((end_word(end), end_number(end)))
    } else {
        Ok(("not told once", 0))
    }
}

// A row.
#[derive(Clone, Copy)]
struct Row<'a> {
    letters: &'a str,
    reads: u64,
    writes: u64,
    end: &'a str,
    number: u64,
}

fn row_of(row: &str) -> Option<Row<'_>> {
    let (letters, rest) = row.split_once(" ")?;
    let (reads, rest) = rest.split_once(" ")?;
    let (writes, rest) = rest.split_once(" ")?;
    let (end, number) = rest.split_once(" ")?;
    Some(Row {
        letters,
        reads: reads.parse::<u64>().ok()?,
        writes: writes.parse::<u64>().ok()?,
        end,
        number: number.parse::<u64>().ok()?,
    })
}

// Whether the connection ends by a read fault exactly where a read fails that is made.
fn fails_by_reads<R: Wait>(rt: &R, alloc: Global, row: Row<'_>) -> Result<bool, Fail> {
    for call in 0..row.reads.saturating_add(3) {
        let fails = Fails {
            reads: &[call],
            writes: &[],
        };
        let wanted = if call < row.reads {
            ("ReadFault", 0)
        } else {
            (row.end, row.number)
        };
        if seen(rt, alloc, row.letters, fails)? != wanted {
            return Ok(false);
        }
    }
    Ok(true)
}

// The same of writes.
fn fails_by_writes<R: Wait>(rt: &R, alloc: Global, row: Row<'_>) -> Result<bool, Fail> {
    for call in 0..row.writes.saturating_add(3) {
        let fails = Fails {
            reads: &[],
            writes: &[call],
        };
        let wanted = if call < row.writes {
            ("WriteFault", 0)
        } else {
            (row.end, row.number)
        };
        if seen(rt, alloc, row.letters, fails)? != wanted {
            return Ok(false);
        }
    }
    Ok(true)
}

#[test]
fn each_read_that_fails_ends_it_and_no_other(rt: HostRuntime) -> Result<(), Fail> {
    for row in ROWS.lines() {
        let parts = row_of(row).ok_or("no row")?;
        assert!(rt; fails_by_reads(&rt, rt.alloc(), parts)?, "{row}");
    }
    Ok(())
}

#[test]
fn each_write_that_fails_ends_it_and_no_other(rt: HostRuntime) -> Result<(), Fail> {
    for row in ROWS.lines() {
        let parts = row_of(row).ok_or("no row")?;
        assert!(rt; fails_by_writes(&rt, rt.alloc(), parts)?, "{row}");
    }
    Ok(())
}
