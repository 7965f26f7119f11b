//! Why a story or an item is not added.
ghost use Rattle.std.specs.Prelude.{◌≡◌};
ghost use Rattle.mos_values.specs.declared.push_fault.PushFault.TheVariants.{NoMemory as out_of_memory};

use std::alloc::{AllocError, AllocFailed};

/// Why a story is not added to an order, or an item to a story.
#[derive(Clone, Copy, Debug, PartialEq, Eq)]
pub enum PushFault {
    /// One with its ID is there.
    Repeat,
    /// There was no memory for it.
    NoMemory,
}

impl From<AllocError> for PushFault {
    ghost from_gives = { λ _ e. e ≡ out_of_memory };

    fn from(_fault: AllocError) -> PushFault {
        PushFault::NoMemory
    }
}

impl<T: Drop> From<AllocFailed<T>> for PushFault {
    ghost from_gives = { λ _ e. e ≡ out_of_memory };

    fn from(_fault: AllocFailed<T>) -> PushFault {
        PushFault::NoMemory
    }
}
