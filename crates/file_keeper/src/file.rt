//! Calls on an open file.
ghost use Rattle.std.specs.Prelude.{◌≡◌, ◌≤◌, IfOk, OnOk};
ghost use Rattle.std.specs.Io.KnownBytes.{Appends};

use crate::cause::Cause;
use std::fs::OpenFile;
use std::io;
use std::io::Write;

/// A journal has at most so many bytes.
pub(crate) const MOST: u64 = 1_099_511_627_776;

/// How many bytes the file has. `TooLong` where they are more than a journal may have.
pub(crate) fn length_of<F: OpenFile>(file: &F) -> Result<u64, Cause>
    ensures { IfOk result (λ n. n ≤ 1099511627776) }
{
    match file.metadata() {
        Ok(found) if found.len() <= MOST => Ok(found.len()),
        Ok(_) => Err(Cause::TooLong),
        Err(fault) => Err(Cause::System(fault)),
    }
}

/// Writes bytes behind all others, and brings them to the disk.
pub(crate) fn write_behind<F: Write + OpenFile>(file: &mut F, bytes: &[u8]) -> io::Result<()>
    ensures { OnOk result (Appends (F.contents file.old) (F.contents file.new) bytes.now) }
{
    match file.write_all(bytes) {
        Ok(()) => file.sync_data(),
        Err(fault) => Err(fault),
    }
}
