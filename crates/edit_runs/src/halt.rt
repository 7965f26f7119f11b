//! Why a run stops at a line.
ghost use Rattle.std.specs.Prelude.{◌≡◌};
ghost use Rattle.edit_runs.specs.Statuses.{lost_by as lost_by_of, status_at};

use crate::status::EditStatus;
use port_session::End;

/// Why a message has no answer that was told.
#[derive(Clone, Copy, Debug, Drop, PartialEq, Eq)]
pub enum Halt {
    /// A write to the connection failed: the message wasn't sent whole.
    Unsent,
    /// It was sent, and a read of the connection failed before its answer came.
    Unheard,
    /// It was sent, and the connection ended before its answer came, or gave what is no message.
    Unanswered,
    /// What is told couldn't be written.
    WriteFault,
    /// Memory ran out.
    NoMemory,
}

impl Halt {
    /// The status of a run that stops so at the line of this number.
    pub fn at_line(self, line: u64) -> EditStatus
        ensures { result ≡ status_at self line }
    {
        match self {
            Halt::Unsent => EditStatus::Unsent { line },
            Halt::Unheard => EditStatus::Unheard { line },
            Halt::Unanswered => EditStatus::Unanswered { line },
            Halt::WriteFault => EditStatus::WriteFault,
            Halt::NoMemory => EditStatus::NoMemory,
        }
    }
}

/// Why a message has no answer, where the connection ended so.
pub(crate) fn lost_by(end: End) -> Halt
    ensures { result ≡ lost_by_of end }
{
    match end {
        End::NoMemory => Halt::NoMemory,
        End::ReadFault => Halt::Unheard,
        _ => Halt::Unanswered,
    }
}
