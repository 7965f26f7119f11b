//! Streams that come back as they are.
use crate::echo::Echo;
use mos_io::{MemSink, MemSource};
use std::test::Fail;
use stream_commands::{Status, run_stream};

/// The bytes of a text in UTF-16, high byte first.
fn utf16(rt: &HostRuntime, text: &str) -> Result<Vec<u8>, Fail> {
    let mut bytes = Vec::new(rt.alloc());
    for unit in text.encode_utf16() {
        bytes.push((unit / 256) as u8)?;
        bytes.push((unit % 256) as u8)?;
    }
    Ok(bytes)
}

/// Whether a stream, in these pieces, is told to its end, and as this text.
fn comes_as(rt: &HostRuntime, text: &str, pieces: &[usize], wanted: &str) -> Result<bool, Fail> {
    let alloc = rt.alloc();
    let mut source = MemSource::new(
        utf16(rt, text)?,
        Vec::from_slice(alloc, pieces)?,
        Vec::new(alloc),
    );
    let mut sink = MemSink::new(alloc, Vec::new(alloc));
    let status = run_stream(alloc, &mut Echo, &mut source, &mut sink);
    let wanted = utf16(rt, wanted)?;
    Ok(status == Status::Done && sink.bytes() == wanted.as_slice())
}

/// What raw elements may hold, on two lines.
const INSIDE: &str = "<!-- a --> 1 &amp; 2 <![CDATA[</b>]]>\n  \u{e4}\u{1f4fa}\r\n";

/// An element `mosExternalMetadata` of 2,000 characters.
fn metadata(rt: &HostRuntime) -> Result<String, Fail> {
    let mut text = String::from_str(rt.alloc(), "<mosExternalMetadata a='1'>")?;
    text.push_str(INSIDE)?;
    for _ in text.chars().count()..1_978 {
        text.push('x')?;
    }
    text.push_str("</mosExternalMetadata>")?;
    Ok(text)
}

/// An order of 40 stories with 120 items in all, each with such an element.
fn order(rt: &HostRuntime) -> Result<String, Fail> {
    let alloc = rt.alloc();
    let metadata = metadata(rt)?;
    let mut text = String::from_str(
        alloc,
        "<mos><mosID>d</mosID><ncsID>n</ncsID><roCreate><roID>R</roID><roSlug>S</roSlug>",
    )?;
    for story in 0..40u32 {
        let head = format!(in alloc; "<story><storyID>{story}</storyID>")?;
        text.push_str(head.as_str())?;
        for item in 0..3u32 {
            let front = format!(in alloc;
                "<item><itemID>{item}</itemID><objID>O</objID><mosID>d</mosID>"
            )?;
            text.push_str(front.as_str())?;
            text.push_str(metadata.as_str())?;
            text.push_str("</item>")?;
        }
        text.push_str("</story>")?;
    }
    text.push_str("</roCreate></mos>")?;
    Ok(text)
}

#[test]
fn raw_texts_come_back_character_for_character(rt: HostRuntime) -> Result<(), Fail> {
    assert_eq!(rt; metadata(&rt)?.chars().count(), 2_000);
    let order = order(&rt)?;
    assert!(rt; comes_as(&rt, order.as_str(), &[], order.as_str())?);
    assert!(rt; comes_as(&rt, order.as_str(), &[1usize; 3_000], order.as_str())?);
    Ok(())
}

#[test]
fn other_encodings_become_the_canonical_one(rt: HostRuntime) -> Result<(), Fail> {
    let spaced =
        "\u{feff}<?xml version='1.0'?> <mos a='1'>\n<mosID>&#x64;&quot;</mosID><ncsID>n</ncsID> <messageID/> <heartbeat> <time> 2009-04-11T14:22:07Z\n</time> <extra/> </heartbeat> </mos> ";
    let wanted =
        "<mos><mosID>d&quot;</mosID><ncsID>n</ncsID><messageID></messageID><heartbeat><time>2009-04-11T14:22:07Z</time></heartbeat></mos>";
    assert!(rt; comes_as(&rt, spaced, &[], wanted)?);
    Ok(())
}
