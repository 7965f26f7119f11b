//! What a run counts.
ghost use Rattle.std.specs.Prelude.{◌≡◌, true, false};
ghost use Rattle.mos_io.specs.Counts.{counted};
ghost use Rattle.edit_runs.specs.Said.{answered_counts, passed_counts, refused_counts, start_counts};

/// What a run counts. Each number stays at 2^64 - 1.
#[derive(Clone, Copy, Debug, PartialEq, Eq)]
pub struct Counts {
    /// the number of the next message, from 1
    pub number: u64,
    /// the number of the next line, from 1
    pub place: u64,
    /// whether each line so far was an edit or a list, and had the answer that it wanted
    pub good: bool,
}

impl Counts {
    /// Before the first line.
    pub fn new() -> Self
        ensures { result ≡ start_counts }
    {
        Counts {
            number: 1,
            place: 1,
            good: true,
        }
    }

    /// Behind a line that is passed over.
    pub(crate) fn passed(self) -> Self
        ensures { result ≡ passed_counts self }
    {
        Counts {
            number: self.number,
            place: self.place.saturating_add(1),
            good: self.good,
        }
    }

    /// Behind a line that is no edit.
    pub(crate) fn refused(self) -> Self
        ensures { result ≡ refused_counts self }
    {
        Counts {
            number: self.number,
            place: self.place.saturating_add(1),
            good: false,
        }
    }

    /// Behind a line that had an answer, which is the one that it wanted or not.
    pub(crate) fn answered(self, wanted: bool) -> Self
        ensures { result ≡ answered_counts wanted self }
    {
        Counts {
            number: self.number.saturating_add(1),
            place: self.place.saturating_add(1),
            good: self.good && wanted,
        }
    }
}
