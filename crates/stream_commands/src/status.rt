//! How a run ends.
ghost use Rattle.std.specs.Prelude.{◌≡◌};

/// How a run ends. The number of each is the status that the program ends with.
#[derive(Clone, Copy, Debug, PartialEq, Eq)]
pub enum Status {
    /// The input was read to its end, and all was written: 0.
    Done,
    /// The input isn't what the command reads: 1. The last line that was written says so.
    Refused,
    /// The words aren't a command: 2. Nothing was read or written.
    Usage,
    /// The source failed: 3.
    ReadFault,
    /// The sink failed: 4.
    WriteFault,
    /// There was no memory: 5.
    NoMemory,
}

impl Status {
    ghost use Rattle.stream_commands.specs.Statuses.{status_number};

    /// The number that the program ends with.
    pub fn number(self) -> u8
        ensures { result ≡ status_number self }
    {
        match self {
            Status::Done => 0,
            Status::Refused => 1,
            Status::Usage => 2,
            Status::ReadFault => 3,
            Status::WriteFault => 4,
            Status::NoMemory => 5,
        }
    }
}
