//! Why a load or an append failed.
ghost use Rattle.std.specs.Prelude.{◌≡◌};
ghost use Rattle.file_keeper.specs.Causes.{keep_fault as keep_fault_of, journal_cause as journal_cause_of};

use journal_bytes::JournalFault;
use mos_fields::NoMemory;
use rundown_log::KeepFault;
use saved_ends::SaveFault;
use std::io;
use std::io::ErrorKind;

/// Why a load or an append failed.
#[derive(Clone, Copy)]
pub(crate) enum Cause {
    /// Memory ran out.
    NoMemory,
    /// The system says so.
    System(io::Error),
    /// The file has more bytes than a journal may have, or would have.
    TooLong,
    /// The bytes are rejected, or a message is no entry.
    Damaged,
    /// A message that begins at this byte, or behind white space there, isn't whole, and an end tag stands behind it.
    Broken { at: u64 },
    /// What is to be cut off can't be saved in the file of this number beside the journal.
    Unsaved { number: u32, fault: io::Error },
    /// There are fewer entries than the caller has already.
    Fewer,
}

impl From<NoMemory> for Cause {
    fn from(_fault: NoMemory) -> Cause {
        Cause::NoMemory
    }
}

impl From<io::Error> for Cause {
    fn from(fault: io::Error) -> Cause {
        match (fault.kind(), fault.raw_os_error()) {
            (ErrorKind::OutOfMemory, None) => Cause::NoMemory,
            _ => Cause::System(fault),
        }
    }
}

impl From<SaveFault> for Cause {
    fn from(fault: SaveFault) -> Cause {
        match fault {
            SaveFault::NoMemory => Cause::NoMemory,
            SaveFault::Unsaved { number, fault } => Cause::Unsaved { number, fault },
        }
    }
}

/// What a fault of the journal's bytes is to a load.
pub(crate) fn journal_cause(fault: JournalFault) -> Cause
    ensures { result ≡ journal_cause_of fault }
{
    match fault {
        JournalFault::Damaged => Cause::Damaged,
        JournalFault::NoMemory => Cause::NoMemory,
    }
}

/// What a cause is to a keeper: want of memory, and else a fault that is counted.
pub(crate) fn keep_fault(cause: &Cause) -> KeepFault
    ensures { result ≡ keep_fault_of cause.now }
{
    match cause {
        Cause::NoMemory => KeepFault::NoMemory,
        Cause::System(_)
        | Cause::TooLong
        | Cause::Damaged
        | Cause::Broken { at: _ }
        | Cause::Unsaved {
            number: _,
            fault: _,
        }
        | Cause::Fewer => KeepFault::Failed,
    }
}
