//! Calls of the system on a disk's file.
use crate::lines::{say_cut, say_unsaved};
use saved_ends::{SaveFault, save_end};
use std::alloc::Global;
use std::fs::{File, OpenFile};
use std::io;
use std::io::ErrorKind;
use std::os::unix::fs::FileExt;

/// How many bytes the file has.
pub(crate) fn length_of(file: &File) -> io::Result<u64> {
    let found = file.metadata()?;
    Ok(found.len())
}

/// The bytes of a file from one place to another.
fn part_of(alloc: Global, file: &File, from: u64, to: u64) -> io::Result<Vec<u8>> {
    let mut bytes = vec![in alloc; 0u8; to.saturating_sub(from) as usize]?;
    file.read_exact_at(&mut bytes, from)?;
    Ok(bytes)
}

/// Saves what a cut to this length takes off, with the byte in front of it.
fn save_cut(rt: &HostRuntime, path: &str, file: &File, to: u64, length: u64) -> io::Result<()> {
    let from = to.saturating_sub(1);
    let bytes = part_of(rt.alloc(), file, from, length)?;
    let count = bytes.len() as u64;
    match save_end(rt, path, &bytes, count) {
        Ok(number) => {
            say_cut(rt, path, from, count, number);
            Ok(())
        }
        Err(SaveFault::NoMemory) => Err(io::Error::from(ErrorKind::OutOfMemory)),
        Err(SaveFault::Unsaved { number, fault }) => {
            say_unsaved(rt, path, number, fault);
            Err(fault)
        }
    }
}

/// Cuts the file to this length. What that takes off is saved first where `saves`, with the byte in front of it, which ended
/// the journal's file and is written over behind the cut.
pub(crate) fn cut_file(
    rt: &HostRuntime,
    path: &str,
    file: &File,
    to: u64,
    saves: bool,
) -> io::Result<()> {
    let length = length_of(file)?;
    if saves && to < length {
        save_cut(rt, path, file, to, length)?;
    }
    file.set_len(to)
}
