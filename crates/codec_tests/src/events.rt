//! Streams of bytes in pieces.
use crate::told::{Told, answer_told};
use crate::units::{bytes_of, front};
use mos_decoder::EventDecoder;
use mos_fields::{NoMemory, let_go};
use mos_lexer::Kind;
use std::alloc::Global;
use std::test::Fail;

/// 57 code units
const HEARTBEAT: &str = "<mos><mosID>d</mosID><ncsID>n</ncsID><reqMachInfo/></mos>";

fn push_told(alloc: Global, out: &mut String, told: Told) -> Result<(), NoMemory> {
    match told {
        Told::More => out.push_str("."),
        Told::Message { began, .. } => out.push_str(format!(in alloc; "<{began}>")?.as_str()),
        Told::Rejected(place, Kind::End) => {
            out.push_str(format!(in alloc; "!{place} End;")?.as_str())
        }
        Told::Rejected(place, _) => out.push_str(format!(in alloc; "!{place};")?.as_str()),
        Told::NoMemory => out.push_str("!no memory;"),
    }
}

/// Feeds a piece, and appends three answers or up to the first that more has to be fed.
fn feed(
    alloc: Global,
    decoder: &mut EventDecoder,
    part: &[u8],
    out: &mut String,
) -> Result<(), NoMemory> {
    if decoder.place() < 1_000_000 && part.len() < 1_000_000 {
        decoder.feed(part)?;
    }
    for _ in 0..3 {
        match answer_told(decoder.next()) {
            Told::More => break,
            told => push_told(alloc, out, told)?,
        }
    }
    Ok(())
}

/// Feeds bytes in pieces of so many, and their end.
fn feed_all(
    alloc: Global,
    decoder: &mut EventDecoder,
    bytes: &[u8],
    piece: usize,
    out: &mut String,
) -> Result<(), NoMemory> {
    for part in bytes.chunks(piece.max(1)) {
        feed(alloc, decoder, part, out)?;
    }
    push_told(alloc, out, answer_told(decoder.end()))?;
    out.push_str(format!(in alloc; " {} of {}", decoder.count(), decoder.place())?.as_str())
}

/// What the bytes come to, fed in pieces of so many, and their end.
fn answers(alloc: Global, bytes: &[u8], piece: usize) -> Result<String, NoMemory> {
    let mut decoder = EventDecoder::new(alloc);
    let mut out = String::new(alloc);
    let fed = feed_all(alloc, &mut decoder, bytes, piece, &mut out);
    let_go(decoder);
    fed?;
    Ok(out)
}

#[test]
fn pieces_of_any_size_come_to_the_same(rt: HostRuntime) -> Result<(), Fail> {
    let alloc = rt.alloc();
    let text = format!(in alloc; "{HEARTBEAT} {HEARTBEAT}\n")?;
    let bytes = bytes_of(alloc, text.as_str())?;
    for piece in 1..8 {
        let out = answers(alloc, &bytes, piece)?;
        assert_eq!(rt; out.as_str(), "<0><58>. 2 of 116");
    }
    Ok(())
}

#[test]
fn an_odd_byte_is_no_end(rt: HostRuntime) -> Result<(), Fail> {
    let alloc = rt.alloc();
    let mut bytes = bytes_of(alloc, HEARTBEAT)?;
    bytes.push(0)?;
    assert_eq!(rt; answers(alloc, &bytes, 7)?.as_str(), "<0>!57 End; 1 of 57");
    assert_eq!(rt;
        answers(alloc, front(&bytes, 100), 100)?.as_str(),
        "!50 End; 0 of 50"
    );
    assert_eq!(rt;
        answers(alloc, front(&bytes, 113), 3)?.as_str(),
        "!56 End; 0 of 56"
    );
    Ok(())
}

#[test]
fn a_rejection_stays(rt: HostRuntime) -> Result<(), Fail> {
    let alloc = rt.alloc();
    let bytes = bytes_of(alloc, "<mos><ncsID>")?;
    assert_eq!(rt;
        answers(alloc, &bytes, 100)?.as_str(),
        "!5;!5;!5;!5; 0 of 12"
    );
    Ok(())
}
