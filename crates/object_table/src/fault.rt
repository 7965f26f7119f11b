//! Why a table doesn't take an object.
ghost use Rattle.std.specs.Prelude.{◌≡◌};
ghost use Rattle.object_table.specs.declared.fault.TableFault.TheVariants.{NoMemory as out_of_memory};

use std::alloc::{AllocError, AllocFailed};

/// Why a table doesn't take an object. After each the table is as it was.
#[derive(Clone, Copy, Debug, Drop, PartialEq, Eq)]
pub enum TableFault {
    /// The canonical mosListAll element of the objects would pass 8,000,000 code units: it would have so many, 2^64 - 1
    /// where that is smaller.
    Full { units: u64 },
    /// There was no memory.
    NoMemory,
}

impl From<AllocError> for TableFault {
    ghost from_gives = { λ _ e. e ≡ out_of_memory };

    fn from(_fault: AllocError) -> TableFault {
        TableFault::NoMemory
    }
}

impl<T: Drop> From<AllocFailed<T>> for TableFault {
    ghost from_gives = { λ _ e. e ≡ out_of_memory };

    fn from(_fault: AllocFailed<T>) -> TableFault {
        TableFault::NoMemory
    }
}
