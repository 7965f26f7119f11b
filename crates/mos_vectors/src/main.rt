//! Reads each line of standard input as a stream of MOS messages of its own, an ASCII text that is turned into UCS-2, in
//! which `\feff` is the code unit FEFF, and prints what `mos_replay show` says of it. `stdin` beside `src/` holds streams
//! for every message, and `stdout` what is to be said of each, for this software and any other: see `docs/VECTORS.md`.
#![tactic(auto)]

use mos_fields::NoMemory;
use mos_io::{MemSink, MemSource};
use std::alloc::Global;
use std::process::ExitCode;
use stream_commands::{Lister, run_stream};

/// The most lines that are read.
const MOST: u32 = 100_000;

/// The value of a hexadecimal digit, and 0 of any other byte.
fn digit(byte: u8) -> u16 {
    match byte {
        b'0'..=b'9' => u16::from(byte - b'0'),
        b'a'..=b'f' => u16::from(byte - b'a') + 10,
        _ => 0,
    }
}

/// The bytes of a line in UCS-2, high byte first, without the line feed at its end. A backslash and the four hexadecimal
/// digits behind it are one code unit, and any other byte is one.
fn ucs2(alloc: Global, line: &str) -> Result<Vec<u8>, NoMemory> {
    let mut bytes = Vec::new(alloc);
    let mut digits_left = 0u8;
    let mut unit = 0u16;
    for byte in line.as_bytes() {
        if digits_left > 0 {
            digits_left -= 1;
            unit = (unit << 4) | digit(*byte);
            if digits_left == 0 {
                bytes.extend_from_slice(&unit.to_be_bytes())?;
            }
        } else if *byte == b'\\' {
            digits_left = 4;
            unit = 0;
        } else if *byte != b'\n' {
            bytes.extend_from_slice(&[0, *byte])?;
        }
    }
    Ok(bytes)
}

/// What `show` says of a stream.
fn shown(alloc: Global, line: &str) -> Result<String, NoMemory> {
    let bytes = ucs2(alloc, line)?;
    let mut source = MemSource::new(bytes, Vec::new(alloc), Vec::new(alloc));
    let mut sink = MemSink::new(alloc, Vec::new(alloc));
    let _ = run_stream(alloc, &mut Lister, &mut source, &mut sink);
    let mut text = String::new(alloc);
    for byte in sink.bytes() {
        text.push(*byte as char)?;
    }
    Ok(text)
}

/// Says of the next line what is to be said. False at the end of the input, and where something failed.
fn answer_line(rt: &HostRuntime, line: &mut String) -> bool {
    line.clear();
    match rt.read_line(line) {
        Ok(count) => {
            if count == 0 {
                return false;
            }
        }
        Err(_) => return false,
    }
    match shown(rt.alloc(), line.as_str()) {
        Ok(text) => print!(rt; "{text}").is_ok(),
        Err(_) => false,
    }
}

fn main(rt: HostRuntime) -> ExitCode {
    let mut line = String::new(rt.alloc());
    for _ in 0..MOST {
        if !answer_line(&rt, &mut line) {
            break;
        }
    }
    ExitCode::SUCCESS
}

#[cfg(test)]
mod tests;
