//! The folder of a file.
use std::fs::{OpenFile, OpenOptions};
use std::io;
use std::io::ErrorKind;
use std::rt::Files;

/// The folder of a file.
fn folder_of(path: &str) -> &str {
    match path.rsplit_once('/') {
        Some(("", _)) => "/",
        Some((folder, _)) => folder,
        None => ".",
    }
}

/// Brings the name of the file at this path to the disk, with all names in its folder. A file system that can't sync a folder
/// is no fault.
pub fn sync_folder_of<R: Files>(rt: &R, path: &str) -> io::Result<()> {
    let synced = match OpenOptions::new().read(true).open(rt, folder_of(path)) {
        Ok(opened) => opened.sync_all(),
        Err(fault) => Err(fault),
    };
    match synced {
        Err(fault) if fault.kind() == ErrorKind::InvalidInput => Ok(()),
        other => other,
    }
}
