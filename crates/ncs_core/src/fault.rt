//! Why a command isn't taken, and why the server isn't started.
use mos_fields::OptId;
use rundown_log::Keeper;
use std::alloc::AllocError;

/// Why a command isn't taken.
#[derive(Drop)]
pub enum CommandFault {
    /// An append of this run failed before.
    Stopped,
    /// An order, a story or an item that has to be there isn't.
    Missing { id: OptId },
    /// An order, a story or an item that is put in is there already.
    AlreadyThere { id: OptId },
    /// The list of the order, or else that of all orders, would have this many code units, 2^64 - 1 where that is smaller.
    Full { units: u64 },
    /// The keeper failed, and counted that. The server takes no command until it is started again.
    StoreFault,
    /// Out of memory.
    NoMemory,
}

impl From<AllocError> for CommandFault {
    ghost use Rattle.std.specs.Prelude.{◌≡◌};
    ghost use Rattle.ncs_core.specs.declared.fault.CommandFault.TheVariants.{NoMemory as out_of_memory};

    ghost from_gives = { λ _ e. e ≡ out_of_memory };

    fn from(_fault: AllocError) -> CommandFault {
        CommandFault::NoMemory
    }
}

/// Why the server isn't started.
#[derive(Clone, Copy, Debug, Drop, PartialEq, Eq)]
pub enum StartCause {
    /// The keeper failed, and counted that.
    StoreFault,
    /// This entry, the first of which that is so, isn't accepted after those before it. Entries are numbered from 0.
    BadEntry { number: u64 },
    /// Out of memory.
    NoMemory,
}

impl From<AllocError> for StartCause {
    ghost use Rattle.std.specs.Prelude.{◌≡◌};
    ghost use Rattle.ncs_core.specs.declared.fault.StartCause.TheVariants.{NoMemory as out_of_memory};

    ghost from_gives = { λ _ e. e ≡ out_of_memory };

    fn from(_fault: AllocError) -> StartCause {
        StartCause::NoMemory
    }
}

/// The server isn't started: its keeper, and why.
#[derive(Drop)]
pub struct StartFault<K: Keeper> {
    pub keeper: K,
    pub cause: StartCause,
}
