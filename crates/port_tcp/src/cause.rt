//! Why dials fail, and why no connection can be accepted.
use mos_fields::NoMemory;
use std::alloc::Global;
use std::io::{Error, ErrorKind};

/// Why a dial failed.
#[derive(Clone, Copy, PartialEq, Eq)]
pub(crate) enum Cause {
    /// The machine's name has no address, or can't be looked up.
    NoAddress,
    /// The system says why.
    System(ErrorKind),
    /// The system says why, by this number of an error whose kind has no name.
    Unnamed(i32),
}

impl Cause {
    /// Memory ran out.
    pub(crate) const NO_MEMORY: Cause = Cause::System(ErrorKind::OutOfMemory);

    /// The cause that the system's error shows.
    pub(crate) fn of_system(fault: &Error) -> Self {
        match (fault.kind(), fault.raw_os_error()) {
            (ErrorKind::Uncategorized, Some(number)) => Cause::Unnamed(number),
            (kind, _) => Cause::System(kind),
        }
    }

    /// The same for a dial: an error that no call of the system gave comes from the look-up of a name.
    pub(crate) fn of_fault(fault: &Error) -> Self {
        if fault.raw_os_error().is_none() && fault.kind() != ErrorKind::OutOfMemory {
            return Cause::NoAddress;
        }
        Cause::of_system(fault)
    }

    /// Its word: `NoAddress`, or the name that std has for the kind of the system's error, or, where it has none, the system's
    /// own words for it.
    pub(crate) fn word(self, alloc: Global) -> Result<String, NoMemory> {
        match self {
            Cause::NoAddress => Ok(String::from_str(alloc, "NoAddress")?),
            Cause::System(kind) => Ok(format!(in alloc; "{kind:?}")?),
            Cause::Unnamed(number) => system_words(alloc, number),
        }
    }
}

// The system's words for the error of this number, without the number.
fn system_words(alloc: Global, number: i32) -> Result<String, NoMemory> {
    let fault = Error::from_raw_os_error(number);
    let words = format!(in alloc; "{fault}")?;
    let tail = format!(in alloc; " (os error {number})")?;
    match words.as_str().strip_suffix(tail.as_str()) {
        Some(front) => Ok(String::from_str(alloc, front)?),
        None => Ok(words),
    }
}
