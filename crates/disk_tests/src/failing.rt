//! Calls on the disk that fail.
use crate::keepers::{append, load, opened, opens};
use crate::records::file;
use disk_keeper::{DiskKeeper, OpenFault};
use disks::MemDisk;
use mos_fields::{FieldFault, NoMemory, let_go};
use rundown_log::KeepFault;
use std::alloc::Global;
use std::rt::HostRuntime;
use std::test::Fail;

// So many calls an open makes, and an append.
const OPEN: u64 = 7;

const APPEND: u64 = 4;

// The letters of an image of the disk, opened again; a `!` where it isn't opened.
fn left(alloc: Global, keeper: &DiskKeeper<MemDisk>, fill: u8) -> Result<Vec<char>, FieldFault> {
    let image = keeper.disk().image(fill)?;
    match opened(alloc, &image, &[])? {
        Some(mut again) => {
            let names = load(alloc, &mut again);
            let_go(again);
            names
        }
        None => Ok(Vec::from_slice(alloc, &['!'])?),
    }
}

// Whether each image of the disk, opened again, has no entry or the one.
fn has_none_or_the_one(
    alloc: Global,
    keeper: &DiskKeeper<MemDisk>,
    name: char,
) -> Result<bool, FieldFault> {
    for fill in [0, 1, 7] {
        let found = left(alloc, keeper, fill)?;
        if found.as_slice() != [].as_slice() && found.as_slice() != [name].as_slice() {
            return Ok(false);
        }
    }
    Ok(true)
}

// Whether an append to an empty disk whose call of this number fails answers Failed, and leaves no entry or the one.
fn fails_well(alloc: Global, number: u64) -> Result<bool, FieldFault> {
    let Some(mut keeper) = opened(alloc, &[], &[number])? else {
        return Ok(false);
    };
    let kept = append(alloc, &mut keeper, 'R');
    let held = has_none_or_the_one(alloc, &keeper, 'R');
    let_go(keeper);
    Ok(kept? == Err(KeepFault::Failed) && held?)
}

#[test]
fn an_append_of_which_a_call_fails_leaves_no_entry_or_the_one(rt: HostRuntime) -> Result<(), Fail> {
    for number in OPEN..OPEN + APPEND {
        assert!(rt; fails_well(rt.alloc(), number)?, "{number}");
    }
    Ok(())
}

// Whether each image of this disk is opened with the entries of R and S.
fn images_open(alloc: Global, disk: &MemDisk) -> Result<bool, FieldFault> {
    let wanted = file(alloc, &["R", "S"], 0)?;
    for fill in [0, 1, 7] {
        let image = disk.image(fill)?;
        if !opens(alloc, &image, &['R', 'S'], &wanted)? {
            return Ok(false);
        }
    }
    Ok(true)
}

// A disk whose file has the records of R and S, and a damaged one, and whose call of this number fails.
fn damaged(alloc: Global, number: u64) -> Result<MemDisk, NoMemory> {
    let mut bytes = file(alloc, &["R", "S", "T"], 0)?;
    if let Some(byte) = bytes.get_mut(400) {
        *byte = 1;
    }
    let fails = vec![in alloc; number; 1]?;
    Ok(MemDisk::new(alloc, bytes, fails))
}

// Whether an open of which this call fails answers so, and leaves the same entries.
fn open_fails_well(alloc: Global, number: u64) -> Result<bool, FieldFault> {
    match DiskKeeper::open(alloc, damaged(alloc, number)?) {
        Err(OpenFault::Failed { disk }) => {
            let held = images_open(alloc, &disk);
            let_go(disk);
            held
        }
        other => {
            let_go(other);
            Ok(false)
        }
    }
}

#[test]
fn an_open_of_which_a_call_fails_leaves_the_entries(rt: HostRuntime) -> Result<(), Fail> {
    for number in 0..OPEN {
        assert!(rt; open_fails_well(rt.alloc(), number)?, "{number}");
    }
    Ok(())
}

// Whether these are some of those, in their order.
fn are_some(found: &[char], of: &[char]) -> bool {
    let mut rest = found;
    for name in of {
        if let [first, more @ ..] = rest
            && first == name
        {
            rest = more;
        }
    }
    rest.is_empty()
}

// Whether these are the acknowledged entries, and behind them some of those whose append failed.
fn may_stand(found: &[char], acknowledged: &[char], failed: &[char]) -> bool {
    match found.get(acknowledged.len()..) {
        Some(behind) if found.starts_with(acknowledged) => are_some(behind, failed),
        _ => false,
    }
}

// Whether each image of the disk, opened again, has the acknowledged entries, and behind them some of those whose append
// failed.
fn images_hold(
    alloc: Global,
    keeper: &DiskKeeper<MemDisk>,
    acknowledged: &[char],
    failed: &[char],
) -> Result<bool, FieldFault> {
    for fill in [0, 1, 7] {
        let found = left(alloc, keeper, fill)?;
        if !may_stand(&found, acknowledged, failed) {
            return Ok(false);
        }
    }
    Ok(true)
}

// Whether four appends one after another leave what they may, each.
fn appends_hold(alloc: Global, keeper: &mut DiskKeeper<MemDisk>) -> Result<bool, FieldFault> {
    let mut acknowledged = Vec::new(alloc);
    let mut failed = Vec::new(alloc);
    for name in ['R', 'S', 'T', 'U'] {
        let kept = append(alloc, keeper, name)?;
        failed.push(name)?;
        if !images_hold(alloc, keeper, &acknowledged, &failed)? {
            return Ok(false);
        }
        if kept == Ok(()) {
            // Behind an append that succeeded each image has the same entries, and its own is the last.
            acknowledged = left(alloc, keeper, 0)?;
            failed.clear();
            if acknowledged.last() != Some(&name)
                || !images_hold(alloc, keeper, &acknowledged, &failed)?
            {
                return Ok(false);
            }
        }
    }
    let loaded = load(alloc, keeper)?;
    Ok(may_stand(&loaded, &acknowledged, &failed))
}

// The same of an empty disk, two of whose calls fail.
fn recovers(alloc: Global, first: u64, second: u64) -> Result<bool, FieldFault> {
    let Some(mut keeper) = opened(alloc, &[], &[first, second])? else {
        return Ok(false);
    };
    let held = appends_hold(alloc, &mut keeper);
    let_go(keeper);
    held
}

#[test]
fn what_is_acknowledged_stays_whichever_two_calls_fail(rt: HostRuntime) -> Result<(), Fail> {
    for first in OPEN..OPEN + 3 * APPEND {
        for second in first..first + OPEN + APPEND {
            assert!(rt;
                recovers(rt.alloc(), first, second)?,
                "{first} and {second}"
            );
        }
    }
    Ok(())
}
