//! A keeper on a disk.
ghost use Rattle.std.specs.Prelude.{◌≡◌, ◌⊎◌, ◌≤◌, ℕ, List, [], ◌∷◌, ◌++◌, None, Err, Some, IfErr, IfOk, OnErr, OnOk, drop};
ghost use Rattle.mos_edits.specs.Entries.{Entry as JournalEntry};
ghost use Rattle.mos_machines.specs.Values.{edit_message};
ghost use Rattle.mos_values.specs.Sound.{IsSound};
ghost use Rattle.disks.specs.Model.{LeavesNoOther, LeavesOnly};
ghost use Rattle.journal_records.specs.Records.{Scans};
ghost use Rattle.rundown_log.specs.Keeping.{Appends, LeavesCertain, Loads, LoadsBehind, all_certain};
ghost use Rattle.disk_keeper.specs.Steps.{CountsFailed, CouldGive, StandsAsBefore, StandsForEither};
ghost use Rattle.disk_keeper.specs.JournalFiles.{IsStaged, IsTorn, IsWhole, StandsAsBeforeOrMore};

use crate::calls::{mend, read};
use crate::fault::OpenFault;
use crate::file::JournalFile;
use crate::keeping::keep;
use crate::recovery::recover;
use disks::Disk;
use journal_records::staged_bytes;
use mos_fields::{NoMemory, let_go, pair_ok};
use rundown_log::{Entries, Entry, KeepFault, Keeper};
use std::alloc::Global;
use std::mem::replace;

/// Keeps entries on a disk.
///
/// The acknowledged entries are those found by the last recovery, and those whose append was answered Ok since. A recovery is
/// what `open` does, and what the next append or load does first where a call failed. At each moment each crash leaves a
/// file that stands for the acknowledged entries, or for these and the one in hand.
#[derive(Drop)]
pub struct DiskKeeper<D: Disk> {
    file: JournalFile<D>,
    // the entry of the last append, where that failed
    doubt: Option<Entry>,
}

impl<D: Disk> DiskKeeper<D> {
    ghost use Rattle.disk_keeper.specs.Keepers.{IsOpened, disk as disk_of, faults as faults_of};
    ghost use Rattle.disk_keeper.specs.OpenFaults.{HasCause, disk_in};

    /// The keeper of the entries on this disk.
    pub fn open(alloc: Global, disk: D) -> Result<Self, OpenFault<D>>
        ensures opened { D.told disk → IfOk result (λ k. IsOpened (D.may_leave disk) k) }

        // A crash at any moment leaves a file that stands for a list that the disk could give before.
        ensures any_moment { D.told disk → IfOk result (λ k. LeavesOnly D.moment D.left_since disk (disk_of k) (StandsAsBefore (D.may_leave disk))) }
        ensures any_moment_err { D.told disk → IfErr result (λ f. LeavesOnly D.moment D.left_since disk (disk_in f) (StandsAsBefore (D.may_leave disk))) }

        ensures faults { IfOk result (λ k. faults_of k ≡ D.faults disk) }
        ensures cause { IfErr result (λ f. HasCause (D.faults disk) (D.faults (disk_in f)) f) }
    {
        let mut disk = disk;
        match recover(alloc, &mut disk) {
            Ok(found) => {
                let end = found.end as u64;
                let_go(found);
                Ok(DiskKeeper {
                    file: JournalFile {
                        disk,
                        alloc,
                        end,
                        whole: true,
                    },
                    doubt: None,
                })
            }
            Err(KeepFault::Failed) => Err(OpenFault::Failed { disk }),
            Err(KeepFault::NoMemory) => Err(OpenFault::NoMemory { disk }),
        }
    }

    /// The disk.
    pub fn disk(&self) -> &D
        ensures { result.now ≡ disk_of self.now }
    {
        &self.file.disk
    }
}

// Puts the entry of an append in doubt where the append failed, and no entry where it succeeded.
fn settle(
    doubt: &mut Option<Entry>,
    entry: Entry,
    kept: Result<(), KeepFault>,
) -> Result<(), KeepFault>
    ensures same { result ≡ kept }
    ensures ok { OnOk kept (doubt.new ≡ None) }
    ensures failed { kept ≡ Err KeepFault.Failed → doubt.new ≡ Some entry }
    ensures no_memory { kept ≡ Err KeepFault.NoMemory → doubt.new ≡ doubt.old }
{
    match kept {
        Ok(()) => {
            let_go(entry);
            let_go(replace(doubt, None));
            Ok(())
        }
        Err(KeepFault::Failed) => {
            let_go(replace(doubt, Some(entry)));
            Err(KeepFault::Failed)
        }
        Err(KeepFault::NoMemory) => {
            let_go(entry);
            Err(KeepFault::NoMemory)
        }
    }
}

// The entries behind the first so many; none where there are fewer.
fn behind(entries: Entries, known: usize) -> Entries
    ensures { result ≡ drop known entries }
{
    let mut items = entries.into_vec();
    let count = items.len();
    let first = known.min(count);
    items.rotate_left(first);
    items.truncate(count - first);
    Entries::from_vec(items)
}

// The entries of a journal's file, which is made whole first where it is torn.
fn load_file<D: Disk>(file: &mut JournalFile<D>) -> Result<Entries, KeepFault>
    ensures entries { (es : List JournalEntry) → IsWhole file.old es → IfOk result (λ found. found ≡ es) }
    ensures whole { (es : List JournalEntry) → IsWhole file.old es → OnOk result (IsWhole file.new es) }
    ensures any_moment { (es : List JournalEntry) → IsWhole file.old es → LeavesOnly D.moment D.left_since (file.old).disk (file.new).disk (λ c. Scans c es) }
    ensures still { (es : List JournalEntry) → IsWhole file.old es → result ≡ Err KeepFault.NoMemory → IsWhole file.new es }
    ensures recovered { IsTorn file.old → IfOk result (λ es. IsWhole file.new es) }
    ensures could { IsTorn file.old → IfOk result (λ es. CouldGive (D.may_leave (file.old).disk) es) }
    ensures recovering { IsTorn file.old → LeavesOnly D.moment D.left_since (file.old).disk (file.new).disk (StandsAsBefore (D.may_leave (file.old).disk)) }
    ensures torn { D.told (file.old).disk → result ≡ Err KeepFault.Failed → IsTorn file.new }
    ensures torn_still { IsTorn file.old → OnErr result (IsTorn file.new) }
    ensures faults { CountsFailed (D.faults (file.old).disk) (D.faults (file.new).disk) result }
{
    if file.whole {
        return read(file);
    }
    mend(file)
}

impl<D: Disk> Keeper for DiskKeeper<D> {
    ghost use Rattle.std.specs.Prelude.{None};
    ghost use Rattle.disk_keeper.specs.Keepers.{Acknowledges, AcknowledgesMore, IsAppended, IsLoaded, WantsRecovery, certainty as certainty_of, disk as disk_of, faults as faults_of};

    ghost kept = { λ _. None };

    ghost faults = { faults_of };

    ghost certainty = { certainty_of };

    ghost appended = { IsAppended };

    ghost loaded = { IsLoaded };

    fn append(&mut self, e: &Entry) -> Result<(), KeepFault>
        requires { IsSound (edit_message e.now.edit) }
        ensures appends { Appends None None (faults_of self.old) (faults_of self.new) e.now result }
        ensures certainty { LeavesCertain None None (certainty_of self.old) (certainty_of self.new) e.now result }
        ensures leaves { IsAppended self.old e.now result self.new }
        ensures rises { faults_of self.old ≤ faults_of self.new }

        // What is answered Ok is acknowledged, and each crash leaves it.
        ensures acknowledged { (es : List JournalEntry) → Acknowledges self.old es → OnOk result (Acknowledges self.new (es ++ e.now ∷ [])) }

        // A crash at any moment leaves the acknowledged entries, or these and the one in hand.
        ensures any_moment { (es : List JournalEntry) → Acknowledges self.old es → LeavesOnly D.moment D.left_since (disk_of self.old) (disk_of self.new) (StandsForEither es e.now) }

        // Want of memory changes nothing.
        ensures still { (es : List JournalEntry) → Acknowledges self.old es → result ≡ Err KeepFault.NoMemory → Acknowledges self.new es }

        // After a call that failed the keeper recovers first, and at each moment a crash leaves a list that the disk could
        // give before, or such a list and the entry in hand.
        ensures failed { D.told (disk_of self.old) → result ≡ Err KeepFault.Failed → WantsRecovery self.new }
        ensures recovered { WantsRecovery self.old → OnOk result (AcknowledgesMore (D.may_leave (disk_of self.old)) e.now self.new) }
        ensures recovering { WantsRecovery self.old → LeavesOnly D.moment D.left_since (disk_of self.old) (disk_of self.new) (StandsAsBeforeOrMore (D.may_leave (disk_of self.old)) e.now) }
        ensures torn_still { WantsRecovery self.old → OnErr result (WantsRecovery self.new) }

        // Want of memory comes before the first write.
        ensures no_memory { WantsRecovery self.old → result ≡ Err KeepFault.NoMemory → LeavesNoOther (D.may_leave (disk_of self.old)) (D.may_leave (disk_of self.new)) }
    {
        let (bytes, copy) = pair_ok(staged_bytes(self.file.alloc, e), e.try_clone())?;
        let kept = keep(&mut self.file, &bytes);
        settle(&mut self.doubt, copy, kept)
    }

    fn load(&mut self) -> Result<Entries, KeepFault>
        ensures loads { Loads None (faults_of self.old) (faults_of self.new) result }
        ensures certainty { certainty_of self.new ≡ all_certain None }
        ensures leaves { IsLoaded self.old self.new }
        ensures rises { faults_of self.old ≤ faults_of self.new }

        // It gives the acknowledged entries, and each crash leaves them.
        ensures entries { (es : List JournalEntry) → Acknowledges self.old es → IfOk result (λ found. found ≡ es) }
        ensures whole { (es : List JournalEntry) → Acknowledges self.old es → OnOk result (Acknowledges self.new es) }
        ensures any_moment { (es : List JournalEntry) → Acknowledges self.old es → LeavesOnly D.moment D.left_since (disk_of self.old) (disk_of self.new) (λ c. Scans c es) }
        ensures still { (es : List JournalEntry) → Acknowledges self.old es → result ≡ Err KeepFault.NoMemory → Acknowledges self.new es }

        // After a call that failed the keeper recovers first.
        ensures failed { D.told (disk_of self.old) → result ≡ Err KeepFault.Failed → WantsRecovery self.new }
        ensures could { WantsRecovery self.old → IfOk result (λ es. CouldGive (D.may_leave (disk_of self.old)) es) }
        ensures recovered { WantsRecovery self.old → IfOk result (λ es. Acknowledges self.new es) }
        ensures recovering { WantsRecovery self.old → LeavesOnly D.moment D.left_since (disk_of self.old) (disk_of self.new) (StandsAsBefore (D.may_leave (disk_of self.old))) }
        ensures torn_still { WantsRecovery self.old → OnErr result (WantsRecovery self.new) }
    {
        let_go(replace(&mut self.doubt, None));
        load_file(&mut self.file)
    }

    fn load_behind(&mut self, known: usize) -> Result<Entries, KeepFault>
        ensures loads { LoadsBehind None known (faults_of self.old) (faults_of self.new) result }
        ensures certainty { certainty_of self.new ≡ all_certain None }
        ensures leaves { IsLoaded self.old self.new }
        ensures rises { faults_of self.old ≤ faults_of self.new }
        ensures entries { (es : List JournalEntry) → Acknowledges self.old es → IfOk result (λ found. found ≡ drop known es) }
        ensures whole { (es : List JournalEntry) → Acknowledges self.old es → OnOk result (Acknowledges self.new es) }
        ensures any_moment { (es : List JournalEntry) → Acknowledges self.old es → LeavesOnly D.moment D.left_since (disk_of self.old) (disk_of self.new) (λ c. Scans c es) }
        ensures failed { D.told (disk_of self.old) → result ≡ Err KeepFault.Failed → WantsRecovery self.new }
        ensures recovering { WantsRecovery self.old → LeavesOnly D.moment D.left_since (disk_of self.old) (disk_of self.new) (StandsAsBefore (D.may_leave (disk_of self.old))) }
        ensures torn_still { WantsRecovery self.old → OnErr result (WantsRecovery self.new) }
    {
        let_go(replace(&mut self.doubt, None));
        match load_file(&mut self.file) {
            Ok(entries) => Ok(behind(entries, known)),
            Err(fault) => Err(fault),
        }
    }
}
