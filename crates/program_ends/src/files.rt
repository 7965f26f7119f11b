//! The files of the settings.
ghost use Rattle.std.specs.Prelude.{◌≡◌, ◌++◌, IfErr, IfOk, OnOk, string_bytes};
ghost use Rattle.program_ends.specs.Ends.{IsNoFile};
ghost use Rattle.program_ends.specs.Paths.{utf8};

use crate::program_end::{FileOf, ProgramEnd};
use crate::why::Why;
use mos_fields::{NoMemory, Text};
use std::alloc::Global;
use std::fs;
use std::io::ErrorKind;
use std::rt::Files;

/// The bytes of a file. `NoFile` where it can't be opened or read, and `why` then has the line that says why; `NoMemory` where
/// memory runs out.
pub fn read_file<R: Files + AllocGlobal>(
    rt: &R,
    path: &str,
    file: FileOf,
    why: &mut Why,
) -> Result<Vec<u8>, ProgramEnd>
    ensures { IfErr result (λ end. IsNoFile file end) }
{
    match fs::read(rt, path) {
        Ok(bytes) => Ok(bytes),
        Err(fault) if fault.kind() == ErrorKind::OutOfMemory => Err(ProgramEnd::NoMemory),
        Err(fault) => {
            why.tell_file(rt.alloc(), file, path, fault.kind());
            Err(ProgramEnd::NoFile(file))
        }
    }
}

// Appends characters.
fn push_chars(name: &mut String, chars: &[char]) -> Result<(), NoMemory>
    ensures { OnOk result (string_bytes name.new ≡ string_bytes name.old ++ utf8 chars.now) }
{
    for c in chars {
        name.push(*c)?;
    }
    Ok(())
}

/// A path of the settings, as the system takes it: its characters in UTF-8. The only error is that memory runs out.
pub fn path_of(alloc: Global, path: &Text) -> Result<String, NoMemory>
    ensures { IfOk result (λ name. string_bytes name ≡ utf8 path.now) }
{
    let mut chars = Vec::new(alloc);
    path.push_to(&mut chars)?;
    let mut name = String::new(alloc);
    push_chars(&mut name, &chars)?;
    Ok(name)
}
