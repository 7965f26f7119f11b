//! How a run of messages ends.
ghost use Rattle.std.specs.Prelude.{◌≡◌};
ghost use Rattle.message_runs.specs.MessageEnds.{ended_by as ended_by_of, status_of, stopped_by as stopped_by_of};

use edit_runs::{EditStatus, Halt};
use mos_lexer::Kind;
use port_session::End;

/// How a run of the messages of a stream ends.
#[derive(Clone, Copy, Debug, Drop, PartialEq, Eq)]
pub enum MessageEnd {
    /// The stream was read to its end, and each message had the answer that it wanted.
    Done,
    /// The stream was read to its end. A message had another answer.
    Refused,
    /// The stream is rejected, or ends inside a message. What stands before that was given.
    Rejected {
        /// so many code units of the stream stand before the place
        place: u64,
        /// what doesn't fit there: `End` where the stream ends inside a message
        kind: Kind,
    },
    /// The stream couldn't be read.
    ReadFault,
    /// What was told couldn't be written.
    WriteFault,
    /// A write to the connection failed: the message behind the last one whose answer was told wasn't sent whole.
    Unsent,
    /// The message behind the last one whose answer was told was sent, and a read of the connection failed before its answer came.
    Unheard,
    /// The message behind the last one whose answer was told was sent, and the connection ended before its answer came, or gave what
    /// is no message.
    Unanswered,
    /// Memory ran out.
    NoMemory,
}

impl MessageEnd {
    /// The status that the program ends with. Each of the three ways to lose the connection has the status `Lost`.
    pub fn status(self) -> EditStatus
        ensures { result ≡ status_of self }
    {
        match self {
            MessageEnd::Done => EditStatus::Done,
            MessageEnd::Refused => EditStatus::Refused,
            MessageEnd::Rejected { place: _, kind: _ } => EditStatus::Refused,
            MessageEnd::ReadFault => EditStatus::ReadFault,
            MessageEnd::WriteFault => EditStatus::WriteFault,
            MessageEnd::Unsent => EditStatus::Lost,
            MessageEnd::Unheard => EditStatus::Lost,
            MessageEnd::Unanswered => EditStatus::Lost,
            MessageEnd::NoMemory => EditStatus::NoMemory,
        }
    }
}

/// How a run ends whose message couldn't be sent, or whose answer couldn't be heard and told, for this reason.
pub(crate) fn stopped_by(halt: Halt) -> MessageEnd
    ensures { result ≡ stopped_by_of halt }
{
    match halt {
        Halt::Unsent => MessageEnd::Unsent,
        Halt::Unheard => MessageEnd::Unheard,
        Halt::Unanswered => MessageEnd::Unanswered,
        Halt::WriteFault => MessageEnd::WriteFault,
        Halt::NoMemory => MessageEnd::NoMemory,
    }
}

/// How a run ends whose stream gives no more messages, for this reason. `good` is whether each message had the answer that it
/// wanted, and `place` how many whole code units were read.
pub(crate) fn ended_by(good: bool, place: u64, end: End) -> MessageEnd
    ensures { result ≡ ended_by_of good place end }
{
    match end {
        End::Closed => {
            if good {
                MessageEnd::Done
            } else {
                MessageEnd::Refused
            }
        }
        End::BadMessage { place: at, kind } => MessageEnd::Rejected { place: at, kind },
        End::Truncated { bytes: _ } => MessageEnd::Rejected {
            place,
            kind: Kind::End,
        },
        End::Budget => MessageEnd::Rejected {
            place,
            kind: Kind::TooLong,
        },
        End::ReadFault => MessageEnd::ReadFault,
        _ => MessageEnd::NoMemory,
    }
}
