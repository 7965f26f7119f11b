//! Work.

/// What a worker does. It may wait.
///
/// The ghost state `reports` says what holds of the report.
pub trait Job: Drop {
    type Report: Drop;

    ghost reports: { Self → Self.Report → Type 0 };

    /// Does the work.
    fn run(self) -> Self::Report
        ensures { reports self result };
}
