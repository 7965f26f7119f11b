//! Opening a disk's file.
use crate::file_disk::FileDisk;
use saved_ends::sync_folder_of;
use std::fs::{File, OpenFile, OpenOptions, TryLockError};
use std::io;
use std::io::ErrorKind;

/// Why a file isn't a disk.
#[derive(Clone, Copy, Debug, Drop, PartialEq, Eq)]
pub enum FileFault {
    /// Another process, or another disk of this one, has the file.
    Taken,
    /// It can't be opened, made or synced, as the system says.
    Unopened { kind: ErrorKind },
    /// Memory ran out.
    NoMemory,
}

// Why, by the system's words.
fn fault_of(fault: io::Error) -> FileFault {
    FileFault::Unopened { kind: fault.kind() }
}

// Brings the file and its name to the disk.
fn settle(rt: &HostRuntime, path: &str, file: &File) -> io::Result<()> {
    file.sync_all()?;
    sync_folder_of(rt, path)
}

// The file, with a lock on it where its file system has locks.
fn locked(rt: &HostRuntime, path: &str, file: File) -> Result<File, FileFault> {
    if let Err(TryLockError::WouldBlock) = file.try_lock() {
        return Err(FileFault::Taken);
    }
    match settle(rt, path, &file) {
        Ok(()) => Ok(file),
        Err(fault) => Err(fault_of(fault)),
    }
}

/// The file at this path, open for reads and writes, which is made where there is none.
pub(crate) fn opened(rt: &HostRuntime, path: &str) -> Result<File, FileFault> {
    match OpenOptions::new()
        .read(true)
        .write(true)
        .create(true)
        .open(rt, path)
    {
        Ok(file) => locked(rt, path, file),
        Err(fault) => Err(fault_of(fault)),
    }
}
