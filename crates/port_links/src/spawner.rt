//! Workers.
ghost use Rattle.std.specs.Prelude.{◌≡◌, ℕ, ◌≤◌, Option, OnErr, OnOk};
ghost use Rattle.mos_io.specs.Counts.{Rose};
ghost use Rattle.port_links.specs.Links.{More};

use crate::job::Job;
use mos_io::Failed;

/// Starts jobs, each beside its caller, and drops their reports.
///
/// A spawner may be observable: its ghost state `took` is then the number of the jobs that it took. `faults` counts the
/// calls that failed, and never falls. `ready` says that it may be asked, which stays so.
pub trait Spawner<J: Job>: Drop {
    ghost ready: { Self → Type 0 };

    ghost took: { Self → Option ℕ };

    ghost faults: { Self → ℕ };

    /// Starts a job. `Failed` comes only where the count of faults rises; the job was dropped then.
    fn start(&mut self, job: J) -> Result<(), Failed>
        requires { ready self.old }
        ensures ready { ready self.new }
        ensures taken { OnOk result (More (took self.old) (took self.new) 1) }
        ensures rises { faults self.old ≤ faults self.new }
        ensures failed { OnErr result (Rose (faults self.old) (faults self.new)) }
        ensures kept { OnErr result (took self.new ≡ took self.old) };
}
