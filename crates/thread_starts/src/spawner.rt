//! A thread for each job.
ghost use Rattle.std.specs.Prelude.{◌≡◌, ◌≤◌, OnErr, OnOk};
ghost use Rattle.mos_io.specs.Counts.{Rose};
ghost use Rattle.port_links.specs.Links.{More};
ghost use Rattle.thread_starts.specs.Uncounted.{uncounted};

use crate::counting::count_one;
use mos_io::Failed;
use port_links::{Job, Spawner};

/// Starts each job by a function that the caller hands in, as one that calls `start_thread`. How many it started isn't
/// observable.
///
/// It is ready where that function may be called. A closure over the caller's types is made where the call is made: no
/// method of a trait can start a thread of a job of unknown type.
#[derive(Drop)]
pub struct StartSpawner<F: Drop> {
    start_job: F,
    faults: u64,
}

impl<F: Drop> StartSpawner<F> {
    /// A spawner over this function, with no fault so far.
    pub fn new(start_job: F) -> Self
        ensures start_job { result.start_job ≡ start_job }
        ensures faults { result.faults ≡ 0 }
    {
        StartSpawner {
            start_job,
            faults: 0,
        }
    }

    /// How many jobs it couldn't start. The count stays at the last value of its 64 bits.
    pub fn faults(&self) -> u64
        ensures { result ≡ self.now.faults }
    {
        self.faults
    }
}

impl<J: Job, F: Fn(J) -> Result<(), Failed> + Drop> Spawner<J> for StartSpawner<F> {
    ghost use Rattle.std.specs.Prelude.{None};

    ghost ready = { λ s. F.IsAlwaysCallable s.start_job };

    ghost took = { λ s. None };

    ghost faults = { λ s. s.faults };

    fn start(&mut self, job: J) -> Result<(), Failed>
        requires { F.IsAlwaysCallable self.old.start_job }
        ensures ready { F.IsAlwaysCallable self.new.start_job }
        ensures taken { OnOk result (More uncounted uncounted 1) }
        ensures rises { self.old.faults ≤ self.new.faults }
        ensures failed { OnErr result (Rose self.old.faults self.new.faults) }
        ensures kept { OnErr result (uncounted ≡ uncounted) }

        // It answers what the function answers for the job.
        ensures answered { F.post self.old.start_job job result }
        ensures same { self.new.start_job ≡ self.old.start_job }
    {
        match (self.start_job)(job) {
            Ok(()) => Ok(()),
            Err(failed) => {
                count_one(&mut self.faults);
                Err(failed)
            }
        }
    }
}
