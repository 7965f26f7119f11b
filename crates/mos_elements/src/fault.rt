//! Why a token isn't taken.
ghost use Rattle.std.specs.Prelude.{◌≡◌};
ghost use Rattle.mos_elements.specs.declared.fault.FrameFault.TheVariants.{NoMemory as out_of_memory};

use mos_grammar::Fault;
use std::alloc::{AllocError, AllocFailed};

/// Why a token isn't taken.
#[derive(Clone, Copy, Drop)]
pub enum FrameFault {
    /// it doesn't fit behind the tokens before it
    Rejected(Fault),
    /// there was no memory for what it adds
    NoMemory,
}

impl From<AllocError> for FrameFault {
    ghost from_gives = { λ _ e. e ≡ out_of_memory };

    fn from(_fault: AllocError) -> FrameFault {
        FrameFault::NoMemory
    }
}

impl<T: Drop> From<AllocFailed<T>> for FrameFault {
    ghost from_gives = { λ _ e. e ≡ out_of_memory };

    fn from(_fault: AllocFailed<T>) -> FrameFault {
        FrameFault::NoMemory
    }
}
