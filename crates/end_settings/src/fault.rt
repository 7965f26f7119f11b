//! Why a text is no settings.
ghost use Rattle.std.specs.Prelude.{◌≡◌};
ghost use Rattle.end_settings.specs.declared.fault.SettingsFault.TheVariants.{NoMemory as out_of_memory};

use crate::key::Key;
use std::alloc::{AllocError, AllocFailed};
use thiserror::Error;

/// Why a text is no settings. It is shown by the variant's name.
#[derive(Clone, Copy, Debug, PartialEq, Eq, Error)]
pub enum SettingsFault {
    /// The text is no TOML in UTF-8.
    #[error("NotToml")]
    NotToml,
    /// The first key that doesn't stand as it should is lacking.
    #[error("Missing")]
    Missing { key: Key },
    /// The first key that doesn't stand as it should has a value that isn't allowed.
    #[error("BadValue")]
    BadValue { key: Key },
    /// There was no memory to read the text.
    #[error("NoMemory")]
    NoMemory,
}

impl From<AllocError> for SettingsFault {
    ghost from_gives = { λ _ e. e ≡ out_of_memory };

    fn from(_fault: AllocError) -> SettingsFault {
        SettingsFault::NoMemory
    }
}

impl<T: Drop> From<AllocFailed<T>> for SettingsFault {
    ghost from_gives = { λ _ e. e ≡ out_of_memory };

    fn from(_fault: AllocFailed<T>) -> SettingsFault {
        SettingsFault::NoMemory
    }
}
