//! A journal on a file of the system.
use crate::keepers::{append, load};
use crate::records::{RECORD, behind, file, front};
use disk_keeper::DiskKeeper;
use file_disk::{FileDisk, FileFault};
use mos_fields::{FieldFault, let_go};
use std::alloc::Global;
use std::fs;
use std::rt::HostRuntime;
use std::test::Fail;

// The keeper on the file at this path; `None` where it isn't opened.
fn opened(rt: &HostRuntime, path: &str) -> Option<DiskKeeper<FileDisk>> {
    let Ok(disk) = FileDisk::open(rt, path) else {
        return None;
    };
    match DiskKeeper::open(rt.alloc(), disk) {
        Ok(keeper) => Some(keeper),
        Err(fault) => {
            let_go(fault);
            None
        }
    }
}

// The letters of what is loaded from the file at this path, behind an append where a letter is given; a `!` where it isn't
// opened.
fn letters(rt: &HostRuntime, path: &str, name: Option<char>) -> Result<Vec<char>, FieldFault> {
    let Some(mut keeper) = opened(rt, path) else {
        return Ok(Vec::from_slice(rt.alloc(), &['!'])?);
    };
    let kept = match name {
        Some(name) => append(rt.alloc(), &mut keeper, name),
        None => Ok(Ok(())),
    };
    let names = load(rt.alloc(), &mut keeper);
    let_go(keeper);
    if kept? != Ok(()) {
        return Ok(Vec::from_slice(rt.alloc(), &['?'])?);
    }
    names
}

#[test]
fn entries_are_there_when_the_file_is_opened_again(rt: HostRuntime) -> Result<(), Fail> {
    let path = "kept.disk";
    let _ = fs::remove_file(&rt, path);
    assert!(rt; letters(&rt, path, Some('R'))?.as_slice() == ['R'].as_slice());
    assert!(rt; letters(&rt, path, Some('S'))?.as_slice() == ['R', 'S'].as_slice());
    assert!(rt; letters(&rt, path, None)?.as_slice() == ['R', 'S'].as_slice());
    let wanted = file(rt.alloc(), &["R", "S"], 0)?;
    assert!(rt; fs::read(&rt, path)?.as_slice() == wanted.as_slice());
    Ok(())
}

#[test]
fn what_a_start_cuts_off_is_saved(rt: HostRuntime) -> Result<(), Fail> {
    let path = "cut.disk";
    let saved = "cut.disk.cut-1";
    let _ = fs::remove_file(&rt, saved);
    let bytes = file(rt.alloc(), &["R", "S"], 0)?;
    fs::write(&rt, path, front(&bytes, 300))?;
    assert!(rt; letters(&rt, path, Some('T'))?.as_slice() == ['R', 'T'].as_slice());
    let wanted = file(rt.alloc(), &["R", "T"], 0)?;
    assert!(rt; fs::read(&rt, path)?.as_slice() == wanted.as_slice());
    assert!(rt; fs::read(&rt, saved)?.as_slice() == behind(front(&bytes, 300), RECORD));
    assert!(rt; letters(&rt, path, None)?.as_slice() == ['R', 'T'].as_slice());
    assert!(rt; fs::metadata(&rt, "cut.disk.cut-2").is_err());
    Ok(())
}

#[test]
fn a_file_is_one_disk_at_a_time(rt: HostRuntime) -> Result<(), Fail> {
    let path = "taken.disk";
    let first = FileDisk::open(&rt, path);
    let second = FileDisk::open(&rt, path);
    let taken = matches!(second, Err(FileFault::Taken));
    let opened = first.is_ok();
    let_go(first);
    let_go(second);
    assert!(rt; opened && taken);
    Ok(())
}
