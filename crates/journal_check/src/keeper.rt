//! A keeper of entries that were read before.
ghost use Rattle.std.specs.Prelude.{◌≡◌, IfOk, MatchResult, Ok, drop};

use mos_fields::NoMemory;
use mos_values::Sequence;
use rundown_log::{Entries, Entry, KeepFault, Keeper};
use std::alloc::Global;
use std::marker::Model;

/// Has entries that were read before. It takes no further ones: it has no room for any.
#[derive(Drop)]
pub(crate) struct ReadKeeper {
    alloc: Global,
    entries: Entries,
}

impl Model for ReadKeeper {
    ghost use Rattle.std.specs.Prelude.{List};
    ghost use Rattle.mos_edits.specs.Entries.{Entry as JournalEntry};

    ghost Value = { List JournalEntry };

    ghost view = { λ k. k.entries };
}

impl ReadKeeper {
    /// The keeper of these entries.
    pub(crate) fn new(alloc: Global, entries: Entries) -> Self
        ensures { result ≡ entries }
    {
        ReadKeeper { alloc, entries }
    }
}

// These entries, in memory of their own.
fn copies(alloc: Global, entries: &[Entry]) -> Result<Entries, NoMemory>
    ensures { IfOk result (λ copied. copied ≡ entries.now) }
{
    let mut copied = Sequence::new(alloc);
    for entry in entries {
        copied.push(entry.try_clone()?)?;
    }
    Ok(copied)
}

// Those behind the first so many.
fn behind(entries: &[Entry], known: usize) -> &[Entry]
    ensures { result.now ≡ drop known entries.now }
{
    match entries.get(known..) {
        Some(rest) => rest,
        None => &[],
    }
}

// What copies are to who loads them.
fn loaded(copied: Result<Entries, NoMemory>) -> Result<Entries, KeepFault>
    ensures { MatchResult result (λ entries. copied ≡ Ok entries) (λ fault. fault ≡ KeepFault.NoMemory) }
{
    match copied {
        Ok(entries) => Ok(entries),
        Err(NoMemory) => Err(KeepFault::NoMemory),
    }
}

impl Keeper for ReadKeeper {
    ghost use Rattle.std.specs.Prelude.{◌≡◌, Some};
    ghost use Rattle.rundown_log.specs.Keeping.{all_certain};

    ghost kept = { λ k. Some k };

    ghost faults = { λ _. 0 };

    ghost certainty = { λ k. all_certain (Some k) };

    ghost appended = { λ k _ _ m. m ≡ k };

    ghost loaded = { λ k m. m ≡ k };

    fn append(&mut self, _e: &Entry) -> Result<(), KeepFault> {
        Err(KeepFault::NoMemory)
    }

    fn load(&mut self) -> Result<Entries, KeepFault> {
        loaded(copies(self.alloc, self.entries.as_slice()))
    }

    fn load_behind(&mut self, known: usize) -> Result<Entries, KeepFault> {
        loaded(copies(self.alloc, behind(self.entries.as_slice(), known)))
    }
}
