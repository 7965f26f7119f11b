//! Reads each line of standard input as a stream of MOS messages of its own, an ASCII text that is turned into UCS-2, and
//! prints its messages in their canonical encoding. `stdin` beside `src/` holds every message of the profile in that
//! encoding already, with all its fields, so each line has to come back as it is.
#![tactic(auto)]

mod echo;

use echo::Echo;
use mos_fields::NoMemory;
use mos_io::{MemSink, MemSource};
use std::alloc::Global;
use std::process::ExitCode;
use stream_commands::run_stream;

/// The most lines that are read.
const MOST: u32 = 100_000;

/// The bytes of an ASCII text in UCS-2, high byte first, without the line feed at its end.
fn ucs2(alloc: Global, line: &str) -> Result<Vec<u8>, NoMemory> {
    let mut bytes = Vec::new(alloc);
    for byte in line.as_bytes() {
        if *byte != b'\n' {
            bytes.extend_from_slice(&[0, *byte])?;
        }
    }
    Ok(bytes)
}

/// The ASCII text of bytes in UCS-2: what isn't ASCII is left out.
fn ascii(alloc: Global, bytes: &[u8]) -> Result<String, NoMemory> {
    let mut text = String::new(alloc);
    for byte in bytes {
        if *byte != 0 && *byte < 128 {
            text.push(*byte as char)?;
        }
    }
    Ok(text)
}

/// The canonical encoding of a stream.
fn rewritten(alloc: Global, line: &str) -> Result<String, NoMemory> {
    let bytes = ucs2(alloc, line)?;
    let mut source = MemSource::new(bytes, Vec::new(alloc), Vec::new(alloc));
    let mut sink = MemSink::new(alloc, Vec::new(alloc));
    let _ = run_stream(alloc, &mut Echo, &mut source, &mut sink);
    ascii(alloc, sink.bytes())
}

/// Writes the next line's encoding. False at the end of the input, and where something failed.
fn answer_line(rt: &HostRuntime, line: &mut String) -> bool {
    line.clear();
    match rt.read_line(line) {
        Ok(count) => {
            if count == 0 {
                return false;
            }
        }
        Err(_) => return false,
    }
    match rewritten(rt.alloc(), line.as_str()) {
        Ok(text) => println!(rt; "{text}").is_ok(),
        Err(_) => false,
    }
}

fn main(rt: HostRuntime) -> ExitCode {
    let mut line = String::new(rt.alloc());
    for _ in 0..MOST {
        if !answer_line(&rt, &mut line) {
            break;
        }
    }
    ExitCode::SUCCESS
}

#[cfg(test)]
mod tests;
