//! Saving the end of a file.
use crate::folders::sync_folder_of;
use std::fs::{OpenFile, OpenOptions};
use std::io;
use std::io::{ErrorKind, Write};
use std::rt::Files;

/// So many files of cut ends are made beside a file at most.
const MOST: u32 = 1_000_000;

/// Why an end wasn't saved.
#[derive(Clone, Copy)]
pub enum SaveFault {
    /// Memory ran out.
    NoMemory,
    /// The file of this number beside the other can't be written, as the system says.
    Unsaved { number: u32, fault: io::Error },
}

/// Writes bytes into a new file, zeros behind them up to this size, and brings them to the disk.
fn fill<F: Write + OpenFile>(file: &mut F, bytes: &[u8], size: u64) -> io::Result<()> {
    file.write_all(bytes)?;
    file.set_len(size)?;
    file.sync_all()
}

/// Fills the new file at this path, and brings it and its name to the disk. Where that fails, it is removed.
fn keep<R: Files>(
    rt: &R,
    path: &str,
    file: &mut R::File,
    bytes: &[u8],
    size: u64,
) -> io::Result<()> {
    let kept = match fill(file, bytes, size) {
        Ok(()) => sync_folder_of(rt, path),
        Err(fault) => Err(fault),
    };
    if kept.is_err() {
        let _ = rt.remove_file(path);
    }
    kept
}

/// Saves bytes and zeros behind them up to this size in the first file `PATH.cut-1`, `PATH.cut-2` and so on that isn't there
/// yet, and brings it to the disk, with its name in the folder where the file system can sync a folder. It gives the file's
/// number. Where that fails, there is no such file afterwards, unless it can't be removed.
pub fn save_end<R: Files + AllocGlobal>(
    rt: &R,
    path: &str,
    bytes: &[u8],
    size: u64,
) -> Result<u32, SaveFault> {
    for number in 1..MOST {
        let name = match format!(in rt.alloc(); "{path}.cut-{number}") {
            Ok(name) => name,
            Err(_) => return Err(SaveFault::NoMemory),
        };
        let opened = OpenOptions::new()
            .write(true)
            .create_new(true)
            .open(rt, name.as_str());
        let kept = match opened {
            Ok(mut file) => keep(rt, name.as_str(), &mut file, bytes, size),
            Err(fault) if fault.kind() == ErrorKind::AlreadyExists => continue,
            Err(fault) => Err(fault),
        };
        return match kept {
            Ok(()) => Ok(number),
            Err(fault) => Err(SaveFault::Unsaved { number, fault }),
        };
    }
    Err(SaveFault::Unsaved {
        number: MOST,
        fault: io::Error::from(ErrorKind::AlreadyExists),
    })
}
