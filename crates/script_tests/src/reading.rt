//! Worked scripts.

use mos_fields::NoMemory;
use mos_io::{MemSource, Source};
use script_reader::{Script, ScriptFault, close_script, read_script};
use std::alloc::Global;
use std::test::Fail;

/// How many devices and events a script has.
fn counts(alloc: Global, script: Script) -> Result<String, NoMemory> {
    let text = format!(in alloc;
        "{} devices, {} events",
        script.devices,
        script.events.len()
    );
    close_script(script);
    text
}

/// What a script is read as.
fn told(alloc: Global, read: Result<Script, ScriptFault>) -> Result<String, NoMemory> {
    match read {
        Ok(script) => counts(alloc, script),
        Err(ScriptFault::Refused { line }) => format!(in alloc; "line {line}"),
        Err(ScriptFault::ReadFault) => format!(in alloc; "read fault"),
        Err(ScriptFault::NoMemory) => format!(in alloc; "no memory"),
    }
}

/// What these bytes are read as, all at once.
fn read_whole(alloc: Global, bytes: &[u8]) -> Result<String, NoMemory> {
    let bytes = Vec::from_slice(alloc, bytes)?;
    let mut source = MemSource::new(bytes, Vec::new(alloc), Vec::new(alloc));
    told(alloc, read_script(alloc, &mut source))
}

/// What these bytes are read as, in pieces of one byte.
fn read_bytes(alloc: Global, bytes: &[u8]) -> Result<String, NoMemory> {
    let mut pieces = Vec::new(alloc);
    for _ in bytes {
        pieces.push(1usize)?;
    }
    let bytes = Vec::from_slice(alloc, bytes)?;
    let mut source = MemSource::new(bytes, pieces, Vec::new(alloc));
    told(alloc, read_script(alloc, &mut source))
}

/// The bytes of a row: `/` stands for a line feed, and `~` for a carriage return.
fn bytes_of(alloc: Global, row: &str) -> Result<Vec<u8>, NoMemory> {
    let mut bytes = Vec::new(alloc);
    for byte in row.as_bytes() {
        let byte = match *byte {
            b'/' => b'\n',
            b'~' => b'\r',
            byte => byte,
        };
        bytes.push(byte)?;
    }
    Ok(bytes)
}

/// Scripts, and what each is read as.
const SCRIPTS: &str = "\
/ = line 1
 = line 1
devices 1 = line 1
devices 1/ = 1 devices, 0 events
devices 9/ = 9 devices, 0 events
devices 0/ = line 1
devices 10/ = line 1
devices  2/ = line 1
devices 2~/ = line 1
fault/ = line 1
devices 2/open 1/accept 1 1/fault/ = 2 devices, 3 events
devices 2/open 1/accept 1 1/fault = line 4
devices 2// = line 2
devices 2/open 1// = line 3
devices 2/open  1/ = line 2
devices 2/open 1~/ = line 2
devices 2/open 1 /fly/ = line 2
devices 2/open 1/fly/open = line 3
devices 2/devices 2/ = line 2
devices 2/open 7/restart kept/ = 2 devices, 2 events
devices 3/cmd create r A:x,y B/ = 3 devices, 1 events";

#[test]
fn scripts_are_read(rt: HostRuntime) -> Result<(), Fail> {
    let mut rows = 0u64;
    for row in SCRIPTS.lines() {
        if let Some((text, wanted)) = row.split_once(" = ") {
            let bytes = bytes_of(rt.alloc(), text)?;
            let whole = read_whole(rt.alloc(), &bytes)?;
            assert_eq!(rt; whole.as_str(), wanted, "{text}");
            let pieces = read_bytes(rt.alloc(), &bytes)?;
            assert_eq!(rt; pieces.as_str(), wanted, "in pieces of one byte: {text}");
            rows = rows.saturating_add(1);
        }
    }
    assert_eq!(rt; rows, 21);
    Ok(())
}

/// A script with an event of so many names, behind `word`.
fn with_names(alloc: Global, word: &str, names: u32) -> Result<Vec<u8>, NoMemory> {
    let mut bytes = Vec::from_slice(alloc, b"devices 1\n")?;
    bytes.extend_from_slice(word.as_bytes())?;
    for _ in 0..names {
        bytes.extend_from_slice(b" x")?;
    }
    bytes.push(b'\n')?;
    Ok(bytes)
}

#[test]
fn a_line_has_1000_bytes_at_most(rt: HostRuntime) -> Result<(), Fail> {
    let longest = with_names(rt.alloc(), "cmd drop r", 495)?;
    let read = read_whole(rt.alloc(), &longest)?;
    assert_eq!(rt; read.as_str(), "1 devices, 1 events");
    let longer = with_names(rt.alloc(), "cmd drop rr", 495)?;
    let read = read_whole(rt.alloc(), &longer)?;
    assert_eq!(rt; read.as_str(), "line 2");
    Ok(())
}

#[test]
fn a_failed_read_is_told(rt: HostRuntime) -> Result<(), Fail> {
    let alloc = rt.alloc();
    let bytes = Vec::from_slice(alloc, b"devices 1\nfault\n")?;
    let pieces = Vec::from_slice(alloc, &[12usize])?;
    let fails = Vec::from_slice(alloc, &[1u64])?;
    let mut source = MemSource::new(bytes, pieces, fails);
    let read = told(alloc, read_script(alloc, &mut source))?;
    assert_eq!(rt; read.as_str(), "read fault");
    Ok(())
}

#[test]
fn nothing_is_read_behind_a_line_that_is_none(rt: HostRuntime) -> Result<(), Fail> {
    let alloc = rt.alloc();
    let bytes = Vec::from_slice(alloc, b"devices 1\nfly\nfault\n")?;
    let pieces = Vec::from_slice(alloc, &[14usize])?;
    let mut source = MemSource::new(bytes, pieces, Vec::new(alloc));
    let read = told(alloc, read_script(alloc, &mut source))?;
    assert_eq!(rt; read.as_str(), "line 2");
    let mut room = [0u8; 32];
    assert_eq!(rt;
        source.read(&mut room),
        Ok(6),
        "what stands behind the line is left"
    );
    Ok(())
}

/// A script with so many lines.
fn with_lines(alloc: Global, lines: u32) -> Result<Vec<u8>, NoMemory> {
    let mut bytes = Vec::from_slice(alloc, b"devices 9\n")?;
    for _ in 1..lines {
        bytes.extend_from_slice(b"fault\n")?;
    }
    Ok(bytes)
}

#[test]
fn a_script_has_200000_lines_at_most(rt: HostRuntime) -> Result<(), Fail> {
    let longest = with_lines(rt.alloc(), 200_000)?;
    let read = read_whole(rt.alloc(), &longest)?;
    assert_eq!(rt; read.as_str(), "9 devices, 199999 events");
    let longer = with_lines(rt.alloc(), 200_001)?;
    let read = read_whole(rt.alloc(), &longer)?;
    assert_eq!(rt; read.as_str(), "line 200001");
    Ok(())
}
