//! Streams in pieces.
use crate::told::{Told, answer_told};
use crate::units::units_of;
use mos_fields::{NoMemory, let_go};
use mos_lexer::Kind;
use mos_reader::Reader;
use std::alloc::Global;
use std::test::Fail;

/// 127 code units
const HEARTBEAT: &str =
    "<mos><mosID>deck</mosID><ncsID>news</ncsID><messageID></messageID><heartbeat><time>2024-02-29T10:00:00</time></heartbeat></mos>";

fn kind_word(kind: Kind) -> &'static str {
    match kind {
        Kind::BadUnit => "BadUnit",
        Kind::BadChar => "BadChar",
        Kind::Entity => "Entity",
        Kind::Tag => "Tag",
        Kind::TooLong => "TooLong",
        Kind::End => "End",
        Kind::Missing(_) => "Missing",
        _ => "another",
    }
}

fn push_told(alloc: Global, out: &mut String, told: Told) -> Result<(), NoMemory> {
    match told {
        Told::More => out.push_str("."),
        Told::Message { began, events } => {
            out.push_str(format!(in alloc; "<{began}:{events}>")?.as_str())
        }
        Told::Rejected(place, kind) => {
            out.push_str(format!(in alloc; "!{place}:{};", kind_word(kind))?.as_str())
        }
        Told::NoMemory => out.push_str("!no memory;"),
    }
}

/// Feeds a piece and asks so many times for the next message.
fn feed(
    alloc: Global,
    reader: &mut Reader,
    piece: &[u16],
    times: usize,
    out: &mut String,
) -> Result<(), NoMemory> {
    if reader.place() < 1_000_000 && piece.len() < 1_000_000 {
        reader.feed(piece)?;
    }
    for _ in 0..times {
        push_told(alloc, out, answer_told(reader.next()))?;
    }
    Ok(())
}

fn trace(alloc: Global, units: &[u16], times: usize) -> Result<String, NoMemory> {
    let mut reader = Reader::new(alloc);
    let mut out = String::new(alloc);
    let fed = feed(alloc, &mut reader, units, times, &mut out);
    let_go(reader);
    fed?;
    Ok(out)
}

/// Feeds code unit after code unit, and asks behind each for the next message; and once more.
fn feed_each(
    alloc: Global,
    reader: &mut Reader,
    units: &[u16],
    out: &mut String,
) -> Result<(), NoMemory> {
    for unit in units {
        feed(alloc, reader, &[*unit], 1, out)?;
    }
    feed(alloc, reader, &[], 1, out)
}

/// The same with each code unit a piece.
fn trace_each(alloc: Global, units: &[u16]) -> Result<String, NoMemory> {
    let mut reader = Reader::new(alloc);
    let mut out = String::new(alloc);
    let fed = feed_each(alloc, &mut reader, units, &mut out);
    let_go(reader);
    fed?;
    Ok(out)
}

#[test]
fn a_heartbeat_unit_after_unit(rt: HostRuntime) -> Result<(), Fail> {
    let alloc = rt.alloc();
    let units = units_of(alloc, HEARTBEAT)?;
    let out = trace_each(alloc, &units)?;
    let dots = "...............................................................";
    assert_eq!(rt;
        out.as_str(),
        format!(in alloc; "{dots}{dots}<0:8>.")?.as_str()
    );
    Ok(())
}

#[test]
fn two_messages_in_one_piece(rt: HostRuntime) -> Result<(), Fail> {
    let alloc = rt.alloc();
    let text = format!(in alloc; "{HEARTBEAT}\n{HEARTBEAT}\n<mos><x")?;
    let units = units_of(alloc, text.as_str())?;
    let out = trace(alloc, &units, 4)?;
    assert_eq!(rt; out.as_str(), "<0:8><128:8>..");
    Ok(())
}

#[test]
fn a_place_counts_from_the_beginning_of_the_stream(rt: HostRuntime) -> Result<(), Fail> {
    let alloc = rt.alloc();
    let text = format!(in alloc; "{HEARTBEAT}<ncs>")?;
    let units = units_of(alloc, text.as_str())?;
    let out = trace(alloc, &units, 3)?;
    assert_eq!(rt; out.as_str(), "<0:8>!127:Tag;!127:Tag;");
    Ok(())
}

#[test]
fn a_high_unit_alone_is_rejected_where_it_stands(rt: HostRuntime) -> Result<(), Fail> {
    let out = trace(rt.alloc(), &[0x3C, 0xD800, 0x41], 1)?;
    assert_eq!(rt; out.as_str(), "!1:BadUnit;");
    Ok(())
}

#[test]
fn without_its_last_unit_a_message_is_not_complete(rt: HostRuntime) -> Result<(), Fail> {
    let alloc = rt.alloc();
    let mut units = units_of(alloc, HEARTBEAT)?;
    units.pop();
    let out = trace(alloc, &units, 1)?;
    assert_eq!(rt; out.as_str(), ".");
    Ok(())
}

/// Feeds a piece and says twice that the input ends there.
fn feed_last(
    alloc: Global,
    reader: &mut Reader,
    units: &[u16],
    out: &mut String,
) -> Result<(), NoMemory> {
    feed(alloc, reader, units, 0, out)?;
    for _ in 0..2 {
        push_told(alloc, out, answer_told(reader.end()))?;
    }
    Ok(())
}

/// What the end of the input comes to behind a text.
fn end_of(alloc: Global, text: &str) -> Result<String, NoMemory> {
    let units = units_of(alloc, text)?;
    let mut reader = Reader::new(alloc);
    let mut out = String::new(alloc);
    let fed = feed_last(alloc, &mut reader, &units, &mut out);
    let_go(reader);
    fed?;
    Ok(out)
}

#[test]
fn white_space_may_end_a_stream_and_nothing_else(rt: HostRuntime) -> Result<(), Fail> {
    let alloc = rt.alloc();
    assert_eq!(rt; end_of(alloc, "")?.as_str(), "..");
    assert_eq!(rt; end_of(alloc, " \n")?.as_str(), "..");
    assert_eq!(rt; end_of(alloc, " <")?.as_str(), "!2:End;!2:End;");
    assert_eq!(rt;
        end_of(alloc, "<?xml version='1.0'?>")?.as_str(),
        "!21:End;!21:End;"
    );
    assert_eq!(rt; end_of(alloc, HEARTBEAT)?.as_str(), "<0:8>.");
    Ok(())
}
