//! Reading a script from a source.
ghost use Rattle.std.specs.Prelude.{◌≡◌, ◌≤◌, ◌<◌, ℕ, [], IfErr, IfOk, List, length, vec_len};
ghost use Rattle.std.specs.List.{AllByRecursion};
ghost use Rattle.world_scripts.specs.WorldEvents.{HasSoundEdit, events_of};
ghost use Rattle.world_scripts.specs.Scripts.{device_limit};
ghost use Rattle.script_reader.specs.Reading.{IsBounded, IsFault, IsScriptRead, ReadsAll};
ghost use Rattle.script_reader.specs.Readers.{HasRead, IsFed};

use crate::fault::ScriptFault;
use crate::reader::ScriptReader;
use crate::script::Script;
use mos_fields::NoMemory;
use mos_io::Source;
use std::alloc::Global;

/// So many bytes are read at once.
const PIECE: usize = 65_536;

/// Room for a piece of the input.
fn room(alloc: Global) -> Result<Vec<u8>, NoMemory>
    ensures { IfOk result (λ piece. 0 < vec_len piece) }
{
    Ok(vec![in alloc; 0u8; PIECE]?)
}

/// Feeds the whole input to a reader to which nothing was fed.
fn read_all<S: Source>(
    alloc: Global,
    source: &mut S,
    piece: &mut [u8],
    reader: &mut ScriptReader,
) -> Result<(), ScriptFault>
    requires bounded { IsBounded (S.bound source.old) }
    requires full { 0 < length piece.old }
    requires nothing { HasRead reader.old [] }
    ensures read { IfOk result (λ _. IsFed (S.left source.old) (S.left source.new) reader.new) }
    ensures fault { IfErr result (λ f. IsFault (S.left source.old) (S.left source.new) (S.faults source.old) (S.faults source.new) f) }
{
    'piece: loop {
        match source.read(piece) {
            Err(_) => return Err(ScriptFault::ReadFault),
            Ok(0) => return Ok(()),
            Ok(count) => match reader.feed(alloc, &piece[..count]) {
                Ok(()) => {}
                Err(fault) => return Err(fault),
            },
        }
    }
}

/// Reads the script that `source` gives, to its end.
///
/// `Refused` has the number of the first line that is none: it comes as soon as what was read shows it, and nothing more is
/// read then. A line without a line feed behind it is none, a line of more than 1,000 bytes is none, and from the 200,001st
/// on none is one. `ReadFault` comes only where the source's count of faults rose. At most 65,536 bytes of the input, one
/// line and the events are held at a time. The source tells a bound below 2^64 on the bytes that it may still give.
pub fn read_script<S: Source>(alloc: Global, source: &mut S) -> Result<Script, ScriptFault>
    requires { IsBounded (S.bound source.old) }
    ensures read { IfOk result (λ s. IsScriptRead (S.left source.old) (S.left source.new) s.devices (events_of s.events)) }
    ensures devices { IfOk result (λ s. (1 ≤ s.devices) × (s.devices ≤ device_limit)) }
    ensures sound { IfOk result (λ s. AllByRecursion HasSoundEdit (events_of s.events)) }
    ensures fault { IfErr result (λ f. IsFault (S.left source.old) (S.left source.new) (S.faults source.old) (S.faults source.new) f) }
{
    match room(alloc) {
        Err(_) => Err(ScriptFault::NoMemory),
        Ok(mut piece) => {
            let mut reader = ScriptReader::new(alloc);
            match read_all(alloc, source, &mut piece, &mut reader) {
                Err(fault) => Err(fault),
                Ok(()) => reader.end(),
            }
        }
    }
}
