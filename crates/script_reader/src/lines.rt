//! Lines of a script.
ghost use Rattle.std.specs.Prelude.{◌≡◌, IfOk};
ghost use Rattle.world_scripts.specs.WorldEvents.{HasSoundEdit, event_of as event_seen};
ghost use Rattle.script_reader.specs.Readers.{IsCut, IsEnd, IsEventLine, IsFirstLine};

use crate::fault::ScriptFault;
use std::alloc::Global;
use world_scripts::{WorldEvent, read_devices, read_event};

/// The most lines of a script.
const LINES_LIMIT: u64 = 200_000;

/// The place of the first line feed.
fn line_end(bytes: &[u8]) -> Option<usize>
    ensures { IsEnd bytes.now result }
{
    bytes.iter().position(|b| *b == b'\n')
}

/// The first line, without its line feed, and what stands behind it. `None` where no line feed stands in these bytes.
pub fn cut_line(bytes: &[u8]) -> Option<(&[u8], &[u8])>
    ensures { IsCut bytes.now result }
{
    match line_end(bytes) {
        None => None,
        Some(at) => Some((&bytes[..at], &bytes[at + 1..])),
    }
}

/// The number of devices that the first line sets.
pub fn first_line(line: &[u8]) -> Result<u32, ScriptFault>
    ensures { IsFirstLine line.now result }
{
    match read_devices(line) {
        None => Err(ScriptFault::Refused { line: 1 }),
        Some(devices) => Ok(devices),
    }
}

/// The event that a line is; the line has this number, and isn't the first one. One behind the last that a script may have
/// is refused, whatever it says.
pub fn event_line(alloc: Global, line: &[u8], number: u64) -> Result<WorldEvent, ScriptFault>
    ensures read { IsEventLine line.now number result }
    ensures sound { IfOk result (λ e. HasSoundEdit (event_seen e)) }
{
    if number > LINES_LIMIT {
        return Err(ScriptFault::Refused { line: number });
    }
    match read_event(alloc, line) {
        Err(_) => Err(ScriptFault::NoMemory),
        Ok(None) => Err(ScriptFault::Refused { line: number }),
        Ok(Some(event)) => Ok(event),
    }
}
