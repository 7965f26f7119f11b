//! Why there is no room for a report.
ghost use Rattle.std.specs.Prelude.{◌≡◌};
ghost use Rattle.status_board.specs.declared.fault.BoardFault.TheVariants.{NoMemory as out_of_memory};

use std::alloc::AllocError;

/// Why there is no room for a report. After each fault the reports are as they were.
#[derive(Clone, Copy, Debug, Drop, PartialEq, Eq)]
pub enum BoardFault {
    /// The canonical roAck element that lists what the device reported on the order would pass 8,000,000 code units with the
    /// report: it would have so many, 2^64 - 1 where that is smaller.
    Full { units: u64 },
    /// There was no memory.
    NoMemory,
}

impl From<AllocError> for BoardFault {
    ghost from_gives = { λ _ e. e ≡ out_of_memory };

    fn from(_fault: AllocError) -> BoardFault {
        BoardFault::NoMemory
    }
}
