//! Jobs that own a hub together, each with a pass of its own.
ghost use Rattle.std.specs.Prelude.{◌≡◌};
ghost use Rattle.std.specs.Arc.{arc_value};
ghost use Rattle.shared_machine.specs.Passes.{IsPassOf};

use crate::register::{Register, Reply, Request};
use shared_machine::{Hub, Pass};
use std::snapshot::Snapshot;
use std::sync::{Arc, Wait};
use std::thread::Promise;

/// One call, which a thread of its own makes.
#[derive(Drop)]
pub struct CallJob<R: Wait + Drop> {
    pub rt: R,
    pub hub: Arc<Hub<Register>>,
    pub pass: Pass<Register>,
    pub request: Request,
    pub ghost own: { IsPassOf (arc_value hub) pass },
}

/// What the thread brings back.
#[derive(Drop)]
pub struct Report {
    pub pass: Pass<Register>,
    pub reply: Option<Reply>,
}

impl<R: Wait + Drop> CallJob<R> {
    pub fn run(self) -> Report
        ensures { IsPassOf (arc_value self.hub) result.pass }
    {
        let CallJob {
            rt,
            hub,
            mut pass,
            request,
        } = self;
        let reply = hub.call(&rt, &mut pass, request).ok();
        Report { pass, reply }
    }
}

/// The report of a job, which is to come: its pass is one of the job's hub.
pub struct ReportOf<R: Wait + Drop> {
    job: Snapshot<CallJob<R>>,
}

impl<R: Wait + Drop> ReportOf<R> {
    pub fn of(job: &CallJob<R>) -> ReportOf<R>
        ensures { result.job.value ≡ job.now }
    {
        ReportOf {
            job: Snapshot::of(job),
        }
    }
}

impl<R: Wait + Drop> Drop for ReportOf<R> {
    fn drop(self) {
        let Self { job: _ } = self;
    }
}

impl<R: Wait + Drop> Promise<Report> for ReportOf<R> {
    ghost kept_by = { λ p r. IsPassOf (arc_value p.job.value.hub) r.pass };
}
