//! Entries with a keeper in memory, whose appends fail at will.
ghost use Rattle.std.specs.Prelude.{◌≡◌, true, Some};
ghost use Rattle.rundown_log.specs.Memory.{kept as kept_of, settled};
ghost use Rattle.entry_store.specs.Stores.{empty_store};

use crate::store::EntryStore;
use rundown_log::{Journal, MemKeeper};
use std::alloc::Global;

impl EntryStore<MemKeeper> {
    /// No entries, with a keeper in memory that never fails of itself. It takes no memory.
    pub fn in_memory(alloc: Global) -> Self
        ensures { result ≡ empty_store }
    {
        EntryStore {
            journal: Journal::new(alloc),
            keeper: MemKeeper::new(alloc, Vec::new(alloc), false),
            stopped: false,
        }
    }

    /// The keeper's next append fails. Nothing else changes.
    pub fn fail_next_append(&mut self)
        ensures { self.new ≡ record self.old { keeper = record self.old.keeper { failing = true } } }
    {
        self.keeper.fail_next();
    }

    /// The entry whose append failed is kept from now on, or isn't, as `MemKeeper::settle` says. Nothing else changes, and
    /// nothing at all where no append failed: a stopped store stays stopped. It takes no memory.
    pub fn settle(&mut self, stands: bool)
        ensures { self.new ≡ record self.old { keeper = settled self.old.keeper stands; kept = Some (kept_of (settled self.old.keeper stands)) } }
    {
        self.keeper.settle(stands);
    }
}
