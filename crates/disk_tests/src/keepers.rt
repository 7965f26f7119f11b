//! Keepers on disks, and entries of orders that are named by one letter.
ghost use Rattle.std.specs.Prelude.{IfOk};
ghost use Rattle.mos_machines.specs.Values.{edit_message};
ghost use Rattle.mos_values.specs.Sound.{IsSound};

use disk_keeper::DiskKeeper;
use disks::MemDisk;
use mos_edits::Edit;
use mos_fields::{FieldFault, Id, NoMemory, let_go};
use rundown_log::{Entries, Entry, KeepFault, Keeper};
use std::alloc::Global;

/// The entry of a roDelete.
#[tactic(auto, unfolding(mos_values::specs::Sound::IsSound))]
fn delete(alloc: Global, name: char) -> Result<Entry, FieldFault>
    ensures { IfOk result (λ e. IsSound (edit_message e.edit)) }
{
    let ro = Id::try_new(alloc, &[name])?;
    Ok(Entry::new(Edit::Delete(ro)))
}

// Whether an entry is a roDelete.
fn is_delete(e: &Entry) -> bool {
    matches!(e.edit(), Edit::Delete(_))
}

// The letters of the orders of these entries; a `?` where one is no roDelete.
fn names(alloc: Global, entries: &Entries) -> Result<Vec<char>, FieldFault> {
    let mut names = Vec::new(alloc);
    for e in entries.as_slice() {
        if is_delete(e) {
            e.ro().push_to(&mut names)?;
        } else {
            names.push('?')?;
        }
    }
    Ok(names)
}

/// The letters of what is loaded; a `!` where that fails.
pub fn load<K: Keeper>(alloc: Global, keeper: &mut K) -> Result<Vec<char>, FieldFault> {
    match keeper.load() {
        Ok(entries) => {
            let names = names(alloc, &entries);
            let_go(entries);
            names
        }
        Err(_) => Ok(Vec::from_slice(alloc, &['!'])?),
    }
}

/// What an append of the entry of a roDelete answers.
pub fn append<K: Keeper>(
    alloc: Global,
    keeper: &mut K,
    name: char,
) -> Result<Result<(), KeepFault>, FieldFault> {
    let e = delete(alloc, name)?;
    let kept = keeper.append(&e);
    let_go(e);
    Ok(kept)
}

/// The keeper on a disk of these bytes, of which the listed calls fail; `None` where it isn't opened.
pub fn opened(
    alloc: Global,
    bytes: &[u8],
    fails: &[u64],
) -> Result<Option<DiskKeeper<MemDisk>>, NoMemory> {
    let first = bytes.to_vec(alloc)?;
    let listed = fails.to_vec(alloc)?;
    match DiskKeeper::open(alloc, MemDisk::new(alloc, first, listed)) {
        Ok(keeper) => Ok(Some(keeper)),
        Err(fault) => {
            let_go(fault);
            Ok(None)
        }
    }
}

/// Whether the keeper gives these entries, and a crash leaves these bytes.
pub fn holds(
    alloc: Global,
    keeper: &mut DiskKeeper<MemDisk>,
    wanted: &[char],
    bytes: &[u8],
) -> Result<bool, FieldFault> {
    let image = keeper.disk().image(7)?;
    let names = load(alloc, keeper)?;
    Ok(image.as_slice() == bytes && names.as_slice() == wanted)
}

/// Whether a disk of these bytes is opened with the entries of these orders, and a crash leaves those bytes then.
pub fn opens(
    alloc: Global,
    bytes: &[u8],
    wanted: &[char],
    left: &[u8],
) -> Result<bool, FieldFault> {
    match opened(alloc, bytes, &[])? {
        Some(mut keeper) => {
            let held = holds(alloc, &mut keeper, wanted, left);
            let_go(keeper);
            held
        }
        None => Ok(false),
    }
}
