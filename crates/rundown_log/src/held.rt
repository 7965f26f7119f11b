//! The entries that a keeper in memory holds.
ghost use Rattle.std.specs.Prelude.{◌≡◌, ◌+◌, ◌≤◌, [], ◌∷◌, ◌++◌, None, Some, OnOk, OnErr, if◌then◌else◌, length, take};
ghost use Rattle.rundown_log.specs.Memory.{held_kept, settled_doubt};

use crate::entry::Entry;
use mos_fields::{NoMemory, let_go};
use std::alloc::Global;
use std::marker::Model;
use std::mem::replace;

/// Entries in order. Behind those that stand there may be one that still may be settled.
#[derive(Drop)]
pub struct Held {
    items: Vec<Entry>,
    // how many of them stand
    certain: usize,
    // whether the one behind them does, as long as it may be settled
    standing: bool,
}

impl Model for Held {
    ghost use Rattle.std.specs.Prelude.{◌≤◌, ◌+◌, length, take, slice_get};
    ghost use Rattle.rundown_log.specs.Memory.{HeldEntries, doubt_of};

    ghost Value = { HeldEntries };

    ghost view = { λ h. record { certain = take h.certain h.items.items; doubtful = doubt_of h.standing (slice_get h.items.items h.certain) } };

    ghost invariant = { λ h. (h.certain ≤ length h.items.items) × (length h.items.items ≤ h.certain + 1) };
}

// How many entries are kept of so many.
fn count_kept(standing: bool, certain: usize, all: usize) -> usize
    ensures { result ≡ (if standing then all else certain) }
{
    if standing { all } else { certain }
}

// Puts an entry behind the first `n`. Without memory for it all stays as it was.
fn put_behind(items: &mut Vec<Entry>, n: usize, entry: Entry) -> Result<(), NoMemory>
    requires least { n ≤ length items.old.items }
    requires most { length items.old.items ≤ n + 1 }
    ensures ok { OnOk result (items.new.items ≡ take n items.old.items ++ entry ∷ []) }
    ensures err { OnErr result (items.new.items ≡ items.old.items) }
{
    if n < items.len() {
        let_go(replace(&mut items[n], entry));
        return Ok(());
    }
    items.push(entry)?;
    Ok(())
}

impl Held {
    /// No entries.
    pub fn new(alloc: Global) -> Self
        ensures { result ≡ record { certain = []; doubtful = None } }
    {
        Held {
            items: Vec::new(alloc),
            certain: 0,
            standing: false,
        }
    }

    /// The entries that are kept.
    pub fn entries(&self) -> &[Entry]
        ensures { result.now ≡ held_kept self.now }
    {
        let kept = count_kept(self.standing, self.certain, self.items.len());
        &self.items[..kept]
    }

    /// The entry in doubt stands or doesn't from now on.
    pub fn settle(&mut self, stands: bool)
        ensures { self.new ≡ record self.old { doubtful = settled_doubt stands self.old.doubtful } }
    {
        self.standing = stands;
    }

    /// Those that are kept stand from now on, and no other does.
    pub fn close(&mut self)
        ensures { self.new ≡ record { certain = held_kept self.old; doubtful = None } }
    {
        let kept = count_kept(self.standing, self.certain, self.items.len());
        self.items.truncate(kept);
        self.certain = kept;
    }

    /// One more entry stands, behind those that are kept.
    pub fn put(&mut self, entry: Entry) -> Result<(), NoMemory>
        ensures ok { OnOk result (self.new ≡ record { certain = held_kept self.old ++ entry ∷ []; doubtful = None }) }
        ensures err { OnErr result (self.new ≡ self.old) }
    {
        let kept = count_kept(self.standing, self.certain, self.items.len());
        put_behind(&mut self.items, kept, entry)?;
        self.certain = self.items.len();
        Ok(())
    }

    /// One more entry stands or doesn't, behind those that are kept.
    pub fn doubt(&mut self, entry: Entry, stands: bool) -> Result<(), NoMemory>
        ensures ok { OnOk result (self.new ≡ record { certain = held_kept self.old; doubtful = Some (record { entry = entry; stands = stands }) }) }
        ensures err { OnErr result (self.new ≡ self.old) }
    {
        let kept = count_kept(self.standing, self.certain, self.items.len());
        put_behind(&mut self.items, kept, entry)?;
        self.certain = kept;
        self.standing = stands;
        Ok(())
    }
}
