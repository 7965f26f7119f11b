//! A spawner in memory.
ghost use Rattle.std.specs.Prelude.{◌≡◌, ℕ, ◌≤◌, [], ◌∷◌, ◌++◌, Some, IsErr, IsTrue, OnErr, OnOk, length, true, false};
ghost use Rattle.mos_io.specs.Counts.{Rose, counted};
ghost use Rattle.mos_io.specs.Memory.{is_listed as is_listed_in};
ghost use Rattle.port_links.specs.Links.{More};

use crate::job::Job;
use crate::listed::is_listed;
use crate::spawner::Spawner;
use mos_fields::let_go;
use mos_io::Failed;
use std::alloc::Global;
use std::marker::Model;

/// Keeps its jobs, which a test may run, and fails at chosen calls.
#[derive(Drop)]
pub struct MemSpawner<J: Job> {
    jobs: Vec<J>,
    fails: Vec<u64>,
    call: u64,
    faults: u64,
}

impl<J: Job> Model for MemSpawner<J> {
    ghost use Rattle.port_links.specs.Memory.{MemorySpawner};

    ghost Value = { MemorySpawner J };

    ghost view = { λ s. record { jobs = s.jobs.items; fails = s.fails.items; call = s.call; faults = s.faults } };
}

impl<J: Job> MemSpawner<J> {
    /// A spawner without jobs. Call number k, counted from 0 and staying at 2^64 - 1, fails where k is in `fails`; so
    /// does one for whose job there is no memory.
    pub fn new(alloc: Global, fails: Vec<u64>) -> Self
        ensures { result ≡ record { jobs = []; fails = fails.items; call = 0; faults = 0 } }
    {
        MemSpawner {
            jobs: Vec::new(alloc),
            fails,
            call: 0,
            faults: 0,
        }
    }

    /// The jobs, in the order in which they were started.
    pub fn into_jobs(self) -> Vec<J>
        ensures { result.items ≡ self.jobs }
    {
        self.jobs
    }
}

// Puts a job behind the others. Whether there was memory for it.
fn keep<J: Drop>(jobs: &mut Vec<J>, job: J) -> bool
    ensures yes { result ≡ true → jobs.new.items ≡ jobs.old.items ++ job ∷ [] }
    ensures no { result ≡ false → jobs.new.items ≡ jobs.old.items }
{
    match jobs.push(job) {
        Ok(()) => true,
        Err(full) => {
            let_go(full);
            false
        }
    }
}

impl<J: Job> Spawner<J> for MemSpawner<J> {
    ghost use Rattle.std.specs.Prelude.{Some, length};

    ghost ready = { λ s. Unit {0} };

    ghost took = { λ s. Some (length s.jobs) };

    ghost faults = { λ s. s.faults };

    fn start(&mut self, job: J) -> Result<(), Failed>
        ensures ready { Unit {0} }
        ensures taken { OnOk result (More (Some (length self.old.jobs)) (Some (length self.new.jobs)) 1) }
        ensures rises { self.old.faults ≤ self.new.faults }
        ensures failed { OnErr result (Rose self.old.faults self.new.faults) }
        ensures kept { OnErr result (Some (length self.new.jobs) ≡ Some (length self.old.jobs)) }

        // The listed calls fail, and the others keep the job.
        ensures fails { IsTrue (is_listed_in self.old.call self.old.fails) → IsErr result }
        ensures job { OnOk result (self.new ≡ record self.old { jobs = self.old.jobs ++ job ∷ []; call = counted self.old.call }) }
        ensures fault { OnErr result (self.new ≡ record self.old { call = counted self.old.call; faults = counted self.old.faults }) }
    {
        let number = self.call;
        self.call = number.saturating_add(1);
        if !is_listed(number, &self.fails) {
            if keep(&mut self.jobs, job) {
                return Ok(());
            }
        } else {
            let_go(job);
        }
        self.faults = self.faults.saturating_add(1);
        Err(Failed)
    }
}
