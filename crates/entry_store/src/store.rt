//! Entries with their keeper.
ghost use Rattle.std.specs.Prelude.{◌≡◌, ◌≤◌, ◌<◌, [], ◌++◌, false, length, slice_get, Some, OnOk, IfOk, IfErr};
ghost use Rattle.mos_edits.specs.Entries.{entry_of};
ghost use Rattle.mos_machines.specs.Values.{edit_message};
ghost use Rattle.mos_values.specs.Sound.{IsSound};
ghost use Rattle.rundown_log.specs.Keeping.{AreKept, IsFront, all_certain};
ghost use Rattle.entry_store.specs.Stores.{IsKeptBy, IsLoadFault};

use mos_edits::Edit;
use mos_fields::{NoMemory, let_go};
use rundown_log::{Entry, Journal, KeepFault, Keeper};
use std::alloc::Global;
use std::marker::Model;

/// The entries that a keeper acknowledged, in order, and the keeper.
///
/// Once an append failed, the store is stopped: it keeps no more until its keeper is loaded anew.
#[derive(Drop)]
pub struct EntryStore<K: Keeper> {
    pub(crate) journal: Journal,
    pub(crate) keeper: K,
    pub(crate) stopped: bool,
}

impl<K: Keeper> Model for EntryStore<K> {
    ghost use Rattle.rundown_log.specs.Keeping.{AreHeld};
    ghost use Rattle.entry_store.specs.Stores.{StoreTables};

    ghost Value = { StoreTables K };

    ghost view = { λ s. record { entries = s.journal; stopped = s.stopped; faults = K.faults s.keeper; keeper = s.keeper; kept = K.kept s.keeper } };

    ghost invariant = { λ s. AreHeld s.stopped (K.kept s.keeper) (K.certainty s.keeper) s.journal };
}

/// The entries weren't loaded: the keeper, and why.
#[derive(Drop)]
pub struct LoadFault<K: Keeper> {
    /// The keeper.
    pub keeper: K,
    /// Why its entries weren't loaded.
    pub fault: KeepFault,
}

// Adds entries to the end of a journal. Without memory it may have some of them.
fn add_all(journal: &mut Journal, entries: &[Entry]) -> Result<(), NoMemory>
    ensures { OnOk result (journal.new ≡ journal.old ++ entries.now) }
{
    'entries: for entry in entries {
        journal.add(entry)?;
    }
    Ok(())
}

// Adds what a keeper keeps to a journal that is empty. After an error it may have any of that.
fn load_into<K: Keeper>(keeper: &mut K, journal: &mut Journal) -> Result<(), KeepFault>
    requires { journal.old ≡ [] }
    ensures loaded { OnOk result (AreKept (K.kept keeper.old) journal.new) }
    ensures kept { K.kept keeper.new ≡ K.kept keeper.old }
    ensures certainty { K.certainty keeper.new ≡ all_certain (K.kept keeper.old) }
    ensures keeper { K.loaded keeper.old keeper.new }
    ensures rises { K.faults keeper.old ≤ K.faults keeper.new }
    ensures fault { IfErr result (λ f. IsLoadFault (K.faults keeper.old) (K.faults keeper.new) f) }
{
    match keeper.load() {
        Ok(entries) => {
            add_all(journal, entries.as_slice())?;
            Ok(())
        }
        Err(fault) => Err(fault),
    }
}

impl<K: Keeper> EntryStore<K> {
    /// The store of what this keeper loads, in this allocator.
    ///
    /// With an error the keeper comes back and keeps what it kept: `Failed` comes only where it failed in this call and
    /// counted that, `NoMemory` where memory ran out.
    pub fn load(alloc: Global, keeper: K) -> Result<Self, LoadFault<K>>
        ensures loaded { IfOk result (λ s. AreKept (K.kept keeper) s.entries) }
        ensures running { IfOk result (λ s. s.stopped ≡ false) }
        ensures kept { IfOk result (λ s. s.kept ≡ K.kept keeper) }
        ensures keeper { IfOk result (λ s. K.loaded keeper s.keeper) }
        ensures rises { IfOk result (λ s. K.faults keeper ≤ s.faults) }
        ensures fault { IfErr result (λ f. IsLoadFault (K.faults keeper) (K.faults f.keeper) f.fault) }
        ensures kept_err { IfErr result (λ f. K.kept f.keeper ≡ K.kept keeper) }
        ensures rises_err { IfErr result (λ f. K.faults keeper ≤ K.faults f.keeper) }
    {
        let mut keeper = keeper;
        let mut journal = Journal::new(alloc);
        match load_into(&mut keeper, &mut journal) {
            Ok(()) => Ok(EntryStore {
                journal,
                keeper,
                stopped: false,
            }),
            Err(fault) => {
                let_go(journal);
                Err(LoadFault { keeper, fault })
            }
        }
    }

    /// Keeps the entry of an edit, at the end.
    ///
    /// `Failed` comes only where the keeper failed and counted that: whether the entry stands there isn't known then, and
    /// the store is stopped. `NoMemory` keeps and counts nothing. After each error the entries are as they were.
    pub fn keep(&mut self, edit: &Edit) -> Result<(), KeepFault>
        requires running { self.old.stopped ≡ false }
        requires sound { IsSound (edit_message edit.now) }
        ensures { IsKeptBy K.appended self.old self.new (entry_of edit.now) result }
    {
        match self.journal.keep(&mut self.keeper, edit) {
            Ok(()) => Ok(()),
            Err(KeepFault::Failed) => {
                self.stopped = true;
                Err(KeepFault::Failed)
            }
            Err(KeepFault::NoMemory) => Err(KeepFault::NoMemory),
        }
    }

    /// Whether an append failed since the entries were loaded. It takes no memory.
    pub fn is_stopped(&self) -> bool
        ensures { result ≡ self.now.stopped }
    {
        self.stopped
    }

    /// How many entries there are. It takes no memory.
    pub fn len(&self) -> usize
        ensures { result ≡ length self.now.entries }
    {
        self.journal.len()
    }

    /// The entry at a place, which counts from 0. It takes no memory.
    pub fn at(&self, place: usize) -> &Entry
        requires { place < length self.now.entries }
        ensures { slice_get self.now.entries place ≡ Some result.now }
    {
        self.journal.at(place)
    }

    /// The allocator of the entries.
    pub fn allocator(&self) -> Global {
        self.journal.allocator()
    }

    /// The keeper. It takes no memory.
    pub fn keeper(&self) -> &K
        ensures keeper { result.now ≡ self.now.keeper }
        ensures kept { K.kept result.now ≡ self.now.kept }
        ensures faults { K.faults result.now ≡ self.now.faults }
    {
        &self.keeper
    }

    /// Gives the keeper back, which keeps what it kept. It takes no memory.
    pub fn into_keeper(self) -> K
        ensures keeper { result ≡ self.keeper }
        ensures kept { K.kept result ≡ self.kept }
        ensures faults { K.faults result ≡ self.faults }
    {
        let EntryStore {
            journal,
            keeper,
            stopped: _,
        } = self;
        let_go(journal);
        keeper
    }

    /// The law of the type: the keeper keeps the entries, and behind them at most what an append that failed left.
    pub fn has_held_entries(&self)
        ensures { IsFront self.now.kept self.now.entries }
    {
        let _stopped = self.stopped;
    }
}
