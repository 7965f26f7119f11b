//! A keeper in memory.
ghost use Rattle.std.specs.Prelude.{◌≡◌, ◌↔◌, ◌≤◌, [], ◌∷◌, ◌++◌, ◌||◌, ◌==◌, true, false, Some, None, Ok, Err, OnOk, OnErr, IfOk, IsTrue, drop, length};
ghost use Rattle.std.specs.List.{list_any};
ghost use Rattle.mos_io.specs.Counts.{counted};
ghost use Rattle.rundown_log.specs.Keeping.{Appends, LeavesCertain, all_certain};
ghost use Rattle.rundown_log.specs.Memory.{fails_next as fails_next_of, failed, appended, settled, kept as kept_of, certainty as certainty_of, IsAppended, IsLoaded};

use crate::entry::Entry;
use crate::held::Held;
use crate::keeper::{Entries, KeepFault, Keeper};
use mos_fields::NoMemory;
use mos_values::Sequence;
use std::alloc::Global;
use std::marker::Model;

/// Keeps entries in memory, and fails at chosen appends.
#[derive(Drop)]
pub struct MemKeeper {
    held: Held,
    fails: Vec<u64>,
    stands: bool,
    failing: bool,
    call: u64,
    faults: u64,
    alloc: Global,
}

impl Model for MemKeeper {
    ghost use Rattle.rundown_log.specs.Memory.{MemoryKeeper};

    ghost Value = { MemoryKeeper };

    ghost view = { λ k. record { certain = k.held.certain; doubtful = k.held.doubtful; fails = k.fails.items; stands = k.stands; failing = k.failing; call = k.call; faults = k.faults } };
}

// The same entries again.
fn copies(alloc: Global, kept: &[Entry]) -> Result<Entries, NoMemory>
    ensures { IfOk result (λ entries. entries ≡ kept.now) }
{
    let mut entries = Sequence::new(alloc);
    'kept: for entry in kept {
        entries.push(entry.try_clone()?)?;
    }
    Ok(entries)
}

// Whether a number is listed.
fn is_listed(number: u64, list: &[u64]) -> bool
    ensures { result ≡ list_any (λ n. n == number) list.now }
{
    list.contains(&number)
}

impl MemKeeper {
    /// A keeper of no entries. Append number k, counted from 0 and staying at 2^64 - 1, fails where k is in `fails`. Then
    /// its entry is kept exactly where `stands`, until it is settled.
    pub fn new(alloc: Global, fails: Vec<u64>, stands: bool) -> Self
        ensures { result ≡ record { certain = []; doubtful = None; fails = fails.items; stands = stands; failing = false; call = 0; faults = 0 } }
    {
        MemKeeper {
            held: Held::new(alloc),
            fails,
            stands,
            failing: false,
            call: 0,
            faults: 0,
            alloc,
        }
    }

    /// The next append fails, whatever its number.
    pub fn fail_next(&mut self)
        ensures { self.new ≡ record self.old { failing = true } }
    {
        self.failing = true;
    }

    /// The entry of the last append, where it failed and no load came since, is kept from now on or isn't. Else nothing
    /// changes. It takes no memory.
    pub fn settle(&mut self, stands: bool)
        ensures { self.new ≡ settled self.old stands }
    {
        self.held.settle(stands);
    }

    /// The entries that are kept.
    pub fn entries(&self) -> &[Entry]
        ensures { result.now ≡ kept_of self.now }
    {
        self.held.entries()
    }

    // Whether the next append fails.
    fn fails_next(&self) -> bool
        ensures { result ≡ fails_next_of self.now }
    {
        self.failing || is_listed(self.call, &self.fails)
    }

    // An append that fails.
    fn fail(&mut self, entry: Entry) -> Result<(), NoMemory>
        ensures ok { OnOk result (self.new ≡ failed self.old entry) }
        ensures err { OnErr result (self.new ≡ self.old) }
    {
        self.held.doubt(entry, self.stands)?;
        self.failing = false;
        self.call = self.call.saturating_add(1);
        self.faults = self.faults.saturating_add(1);
        Ok(())
    }

    // An append that doesn't.
    fn take(&mut self, entry: Entry) -> Result<(), NoMemory>
        ensures ok { OnOk result (self.new ≡ appended self.old entry) }
        ensures err { OnErr result (self.new ≡ self.old) }
    {
        self.held.put(entry)?;
        self.call = self.call.saturating_add(1);
        Ok(())
    }
}

impl Keeper for MemKeeper {
    ghost use Rattle.rundown_log.specs.Memory.{IsAppended, IsLoaded, kept as kept_of, certainty as certainty_of};

    ghost kept = { λ k. Some (kept_of k) };

    ghost faults = { λ k. k.faults };

    ghost certainty = { certainty_of };

    ghost appended = { IsAppended };

    ghost loaded = { IsLoaded };

    fn append(&mut self, e: &Entry) -> Result<(), KeepFault>
        ensures appends { Appends (Some (kept_of self.old)) (Some (kept_of self.new)) self.old.faults self.new.faults e.now result }
        ensures certainty { LeavesCertain (Some (kept_of self.old)) (Some (kept_of self.new)) (certainty_of self.old) (certainty_of self.new) e.now result }
        ensures rises { self.old.faults ≤ self.new.faults }
        ensures leaves { IsAppended self.old e.now result self.new }
    {
        let entry = e.try_clone()?;
        if self.fails_next() {
            self.fail(entry)?;
            return Err(KeepFault::Failed);
        }
        self.take(entry)?;
        Ok(())
    }

    fn load(&mut self) -> Result<Entries, KeepFault>
        ensures loads { IfOk result (λ entries. entries ≡ kept_of self.old) }
        ensures fault { result ≡ Err KeepFault.Failed → ⊥ }
        ensures stay { kept_of self.new ≡ kept_of self.old }
        ensures certainty { certainty_of self.new ≡ all_certain (Some (kept_of self.old)) }
        ensures leaves { IsLoaded self.old self.new }
    {
        self.held.close();
        let entries = copies(self.alloc, self.held.entries())?;
        Ok(entries)
    }

    fn load_behind(&mut self, known: usize) -> Result<Entries, KeepFault>
        requires { known ≤ length (kept_of self.old) }
        ensures loads { IfOk result (λ entries. entries ≡ drop known (kept_of self.old)) }
        ensures fault { result ≡ Err KeepFault.Failed → ⊥ }
        ensures stay { kept_of self.new ≡ kept_of self.old }
        ensures certainty { certainty_of self.new ≡ all_certain (Some (kept_of self.old)) }
        ensures leaves { IsLoaded self.old self.new }
    {
        self.held.close();
        let entries = copies(self.alloc, &self.held.entries()[known..])?;
        Ok(entries)
    }
}
