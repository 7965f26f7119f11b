//! A server over a keeper in memory, whose appends fail at will.
ghost use Rattle.std.specs.Prelude.{◌≡◌, true, Some};
ghost use Rattle.rundown_log.specs.Memory.{kept as kept_of, settled};

use crate::ncs::Ncs;
use rundown_log::MemKeeper;

impl Ncs<MemKeeper> {
    /// The keeper's next append fails. Nothing else changes.
    pub fn fail_next_append(&mut self)
        ensures { self.new ≡ record self.old { keeper = record self.old.keeper { failing = true } } }
    {
        self.keeper.fail_next();
    }

    /// The entry whose append failed in this run is kept from now on, or isn't, as `MemKeeper::settle` says. Nothing else
    /// changes, and nothing at all where no append failed: the server takes no command all the same until it is started
    /// again. It takes no memory.
    pub fn settle(&mut self, keeps: bool)
        ensures { self.new ≡ record self.old { keeper = settled self.old.keeper keeps; kept = Some (kept_of (settled self.old.keeper keeps)) } }
    {
        self.keeper.settle(keeps);
    }
}
