//! How a run ends.
ghost use Rattle.std.specs.Prelude.{◌≡◌};

/// How a run ends. The number of each is the status that the program ends with.
#[derive(Clone, Copy, Debug, Drop, PartialEq, Eq)]
pub enum EditStatus {
    /// The input was read to its end, and each message had the answer that it wanted: 0.
    Done,
    /// The input was read to its end. A line was no edit, or a message had another answer: 1.
    Refused,
    /// The words behind the program's name aren't what they have to be: 2. Nothing was read or written.
    Usage,
    /// The input couldn't be read: 3.
    ReadFault,
    /// What was told couldn't be written: 4.
    WriteFault,
    /// Memory ran out: 5.
    NoMemory,
    /// The connection couldn't be opened: 6. Nothing was read or written.
    Lost,
    /// A write to the connection failed: 6.
    Unsent {
        /// the number of the line whose message wasn't sent whole, from 1
        line: u64,
    },
    /// A read of the connection failed before an answer came: 6.
    Unheard {
        /// the number of the line whose message was sent and had no answer, from 1
        line: u64,
    },
    /// The connection ended before an answer came, or gave what is no message: 6.
    Unanswered {
        /// the number of the line whose message was sent and had no answer, from 1
        line: u64,
    },
}

impl EditStatus {
    ghost use Rattle.edit_runs.specs.Statuses.{status_number};

    /// The number that the program ends with.
    pub fn number(self) -> u8
        ensures { result ≡ status_number self }
    {
        match self {
            EditStatus::Done => 0,
            EditStatus::Refused => 1,
            EditStatus::Usage => 2,
            EditStatus::ReadFault => 3,
            EditStatus::WriteFault => 4,
            EditStatus::NoMemory => 5,
            EditStatus::Lost => 6,
            EditStatus::Unsent { line: _ } => 6,
            EditStatus::Unheard { line: _ } => 6,
            EditStatus::Unanswered { line: _ } => 6,
        }
    }
}
