//! Plays of a connection in memory.
ghost use Rattle.shared_machine.specs.Passes.{IsPassOf};

use crate::ends::push_end;
use crate::scripted::{Scripted, time};
use mos_fields::{FieldFault, Id, NoMemory};
use mos_io::{FixedClock, MemPacer, MemSink, MemSource, Pace};
use port_events::Side;
use port_session::{End, Port, answer_port, drive_port};
use shared_machine::{Hub, Pass};
use std::alloc::Global;
use std::sync::Wait;
use std::test::Fail;

/// A connection: the bytes that come, and how its source, sink, pacer and hub behave.
#[derive(Clone, Copy)]
pub struct Play<'a> {
    pub side: Side,
    /// ASCII, each character a code unit
    pub input: &'a str,
    /// bytes of the input that are left out at its end
    pub cut: usize,
    /// how many bytes each read gives at most
    pub pieces: &'a [usize],
    /// which reads fail
    pub reads: &'a [u64],
    /// which writes fail
    pub writes: &'a [u64],
    pub budget: u64,
    /// the letters of `Scripted`
    pub replies: &'a str,
    /// `a` again, `b` beat, `s` stop
    pub paces: &'a str,
}

/// This input, with nothing that fails.
pub fn plain<'a>(input: &'a str, replies: &'a str) -> Play<'a> {
    Play {
        side: Side::Upper,
        input,
        cut: 0,
        pieces: &[],
        reads: &[],
        writes: &[],
        budget: 1_000_000,
        replies,
        paces: "",
    }
}

// Two bytes for each character.
fn wide(alloc: Global, text: &str) -> Result<Vec<u8>, NoMemory> {
    let mut bytes = Vec::new(alloc);
    for byte in text.as_bytes() {
        bytes.extend_from_slice(&[0, *byte])?;
    }
    Ok(bytes)
}

// The low byte of each pair.
fn push_narrow(out: &mut Vec<u8>, bytes: &[u8]) -> Result<(), NoMemory> {
    for (place, byte) in bytes.iter().enumerate() {
        if place % 2 == 1 {
            out.push(*byte)?;
        }
    }
    Ok(())
}

fn port(alloc: Global, side: Side) -> Result<Port, FieldFault> {
    let mos = Id::try_new(alloc, &['m'])?;
    let ncs = Id::try_new(alloc, &['n'])?;
    Ok(Port {
        side,
        device: None,
        link: 5,
        mos,
        ncs,
    })
}

fn source(alloc: Global, play: &Play<'_>) -> Result<MemSource, NoMemory> {
    let mut bytes = wide(alloc, play.input)?;
    let kept = bytes.len().saturating_sub(play.cut);
    bytes.truncate(kept);
    let pieces = Vec::from_slice(alloc, play.pieces)?;
    let fails = Vec::from_slice(alloc, play.reads)?;
    Ok(MemSource::new(bytes, pieces, fails))
}

fn sink(alloc: Global, play: &Play<'_>) -> Result<MemSink, NoMemory> {
    Ok(MemSink::new(alloc, Vec::from_slice(alloc, play.writes)?))
}

fn pacer(alloc: Global, play: &Play<'_>) -> Result<MemPacer, NoMemory> {
    let mut list = Vec::new(alloc);
    for letter in play.paces.as_bytes() {
        list.push(match *letter {
            b'a' => Pace::Again,
            b'b' => Pace::Beat,
            _ => Pace::Stop,
        })?;
    }
    Ok(MemPacer::new(alloc, list))
}

// How the connection ended, and what was written.
fn push_outcome(out: &mut Vec<u8>, end: End, written: &[u8]) -> Result<(), NoMemory> {
    push_end(out, end)?;
    out.push(b' ')?;
    push_narrow(out, written)
}

/// Answers the connection, and notes how it ended and what was written.
pub fn answered<R: Wait>(
    rt: &R,
    alloc: Global,
    hub: &Hub<Scripted>,
    pass: &mut Pass<Scripted>,
    play: &Play<'_>,
    out: &mut Vec<u8>,
) -> Result<(), Fail>
    requires { IsPassOf hub.now pass.old }
    ensures { IsPassOf hub.now pass.new }
{
    let port = port(alloc, play.side)?;
    let mut from = source(alloc, play)?;
    let mut to = sink(alloc, play)?;
    let end = answer_port(rt, alloc, hub, pass, port, &mut from, &mut to, play.budget);
    push_outcome(out, end, to.bytes())?;
    Ok(())
}

/// Drives the connection, and notes how it ended and what was written.
pub fn driven<R: Wait>(
    rt: &R,
    alloc: Global,
    hub: &Hub<Scripted>,
    pass: &mut Pass<Scripted>,
    play: &Play<'_>,
    out: &mut Vec<u8>,
) -> Result<(), Fail>
    requires { IsPassOf hub.now pass.old }
    ensures { IsPassOf hub.now pass.new }
{
    let port = port(alloc, play.side)?;
    let mut from = source(alloc, play)?;
    let mut to = sink(alloc, play)?;
    let mut pacer = pacer(alloc, play)?;
    let mut clock = FixedClock::new(time());
    let end = drive_port(
        rt,
        alloc,
        hub,
        pass,
        port,
        &mut from,
        &mut to,
        &mut pacer,
        &mut clock,
        play.budget,
    );
    push_outcome(out, end, to.bytes())?;
    Ok(())
}
