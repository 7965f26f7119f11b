//! Where the lines go.
use crate::stamps::stamped;
use moments::moment_now;
use mos_fields::NoMemory;
use std::alloc::Global;
use std::time::Clock;

// Writes the line to standard error, by one write where it has at most 1,024 bytes, so that lines of several threads don't
// mingle. Where there is no memory for the time, it is left out.
fn write_line<R: Eprint + Clock>(rt: &R, alloc: Global, warns: bool, line: &str) {
    match stamped(alloc, warns, moment_now(rt), line) {
        Ok(whole) => {
            let _ = rt.eprint(whole.as_str());
        }
        Err(_) => {
            let _ = rt.eprint(line);
        }
    }
}

/// Writes the line to standard error, with the time in UTC in front where the clock can be read, as in
/// `2026-12-01T05:02:11Z connection 3 upper from 127.0.0.1:40122`. Where it `warns`, `<4>` stands before that, by which
/// systemd's journal knows it.
///
/// It is one write where all of it has at most 1,024 bytes, so that lines of several threads don't mingle. A line for which
/// there was no memory is left out, and one that can't be written is lost: no connection ends for it. The call waits where
/// standard error is a full pipe, until somebody reads it.
pub fn say<R: Eprint + Clock>(rt: &R, alloc: Global, warns: bool, line: Result<String, NoMemory>) {
    if let Ok(line) = line {
        write_line(rt, alloc, warns, line.as_str());
    }
}
