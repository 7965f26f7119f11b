//! Doors by plans.
use crate::fresh::Fresh;
use crate::noting::Noting;
use crate::texts::bytes_of;
use mos_fields::{NoMemory, let_go, pair_ok, triple_ok};
use mos_io::{FixedClock, MemPacer, MemSink, MemSource};
use port_doors::{Door, GatePorts, ServerPorts};
use port_events::Side;
use port_jobs::PortJob;
use port_links::{Link, Listener, MemListener, MemSpawner};
use std::alloc::Global;
use std::collections::VecDeque;
use std::sync::Wait;

/// A job of these tests.
pub type Doing<R> = PortJob<Noting, (), MemSource, MemSink, Fresh, MemPacer, FixedClock, R>;

/// Who keeps such jobs.
pub type Crew<R> = MemSpawner<Doing<R>>;

/// A listener of these tests.
pub type Memory = MemListener<MemSource, MemSink>;

// The character at a place of a plan.
fn at(plan: &[u8], place: usize) -> u8 {
    match plan.get(place) {
        Some(c) => *c,
        None => b'-',
    }
}

// The number that a digit means.
fn number(digit: u8) -> Option<u64> {
    if digit.is_ascii_digit() {
        Some((digit - b'0').into())
    } else {
        None
    }
}

// The call that fails, if one does.
fn failing(alloc: Global, digit: u8) -> Result<Vec<u64>, NoMemory> {
    let mut calls = Vec::new(alloc);
    if let Some(call) = number(digit) {
        calls.push(call)?;
    }
    Ok(calls)
}

// A connection with this text.
fn link(
    alloc: Global,
    side: Side,
    number: u64,
    letters: &[u8],
) -> Result<Link<MemSource, MemSink>, NoMemory> {
    let bytes = bytes_of(alloc, letters)?;
    Ok(Link {
        number,
        side,
        source: MemSource::new(bytes, Vec::new(alloc), Vec::new(alloc)),
        sink: MemSink::new(alloc, Vec::new(alloc)),
    })
}

// So many connections, with the numbers from 0 on.
fn links(
    alloc: Global,
    side: Side,
    count: u64,
    letters: &[u8],
) -> Result<VecDeque<Link<MemSource, MemSink>>, NoMemory> {
    let mut links = VecDeque::new(alloc);
    for number in 0..count {
        links.push_back(link(alloc, side, number, letters)?)?;
    }
    Ok(links)
}

// The door whose plan begins at this place.
fn door<R: Wait + Drop>(
    alloc: Global,
    side: Side,
    plan: &[u8],
    place: usize,
    letters: &[u8],
) -> Result<Door<Memory, Crew<R>>, NoMemory> {
    let count = number(at(plan, place)).unwrap_or(0);
    let (refused, (links, fails)) = pair_ok(
        failing(alloc, at(plan, place.saturating_add(2))),
        pair_ok(
            links(alloc, side, count, letters),
            failing(alloc, at(plan, place.saturating_add(1))),
        ),
    )?;
    Ok(Door {
        listener: MemListener::new(links, fails),
        spawner: MemSpawner::new(alloc, refused),
    })
}

/// A server's doors by a plan as `2-- 1-- 3-1 -`: three characters for each of the upper, the lower and the editors' door, the
/// number of its connections and the calls at which its listener and its spawner fail, and behind them the call at which the
/// spawner of the workers that dial does. Each connection has this text.
pub fn server_ports<R: Wait + Drop>(
    alloc: Global,
    plan: &[u8],
    letters: &[u8],
) -> Result<ServerPorts<Memory, Crew<R>>, NoMemory> {
    let refused = failing(alloc, at(plan, 12))?;
    let (upper, lower, editor) = triple_ok(
        door(alloc, Side::Upper, plan, 0, letters),
        door(alloc, Side::Lower, plan, 4, letters),
        door(alloc, Side::Editor, plan, 8, letters),
    )?;
    Ok(ServerPorts {
        upper,
        lower,
        editor,
        drivers: MemSpawner::new(alloc, refused),
    })
}

/// A gateway's doors by such a plan of two doors, as `2-- 1-- -`.
pub fn gate_ports<R: Wait + Drop>(
    alloc: Global,
    plan: &[u8],
    letters: &[u8],
) -> Result<GatePorts<Memory, Crew<R>>, NoMemory> {
    let refused = failing(alloc, at(plan, 8))?;
    let (upper, lower) = pair_ok(
        door(alloc, Side::Upper, plan, 0, letters),
        door(alloc, Side::Lower, plan, 4, letters),
    )?;
    Ok(GatePorts {
        upper,
        lower,
        drivers: MemSpawner::new(alloc, refused),
    })
}

/// How many jobs a spawner has. They are let go.
pub fn count_jobs<R: Wait + Drop>(crew: Crew<R>) -> u64 {
    let jobs = crew.into_jobs();
    let count = jobs.len() as u64;
    let_go(jobs);
    count
}

// How many connections are still to come.
fn count_coming(listener: Memory) -> u64 {
    let mut listener = listener;
    let mut count: u64 = 0;
    for _ in 0..20u32 {
        match listener.accept() {
            Ok(Some(link)) => {
                let_go(link);
                count = count.saturating_add(1);
            }
            Ok(None) => return count,
            Err(_) => {}
        }
    }
    99
}

/// How many jobs a door has, and how many connections are still to come.
pub fn count_door<R: Wait + Drop>(door: Door<Memory, Crew<R>>) -> (u64, u64) {
    let Door { listener, spawner } = door;
    (count_jobs(spawner), count_coming(listener))
}
