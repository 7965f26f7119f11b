//! The job of a worker.
ghost use Rattle.std.specs.Prelude.{◌≡◌, ℕ};
ghost use Rattle.std.specs.Arc.{arc_value};
ghost use Rattle.shared_machine.specs.Passes.{IsPassOf};

use crate::names::Names;
use crate::serving::serve;
use crate::task::{Task, Work};
use mos_io::{Clock, Pacer, Sink, Source};
use port_dialing::dial_all;
use port_events::{PortAnswer, PortEvent};
use port_links::{Dialer, Job, Link};
use port_session::Port;
use shared_machine::{Hub, Machine, Pass, StepRelation};
use std::alloc::Global;
use std::sync::{Arc, Wait};

/// A worker's job at a port: to serve a connection that was accepted there, or to dial.
///
/// Where there are `names`, those of a server's devices, the first whole message of an accepted connection says which
/// device it belongs to, and the port is that device's. Else it is served at the port as it is given. The connection's
/// number is the link's either way.
#[derive(Drop)]
pub struct PortJob<
    M: StepRelation<Event = PortEvent, Answer = PortAnswer> + Machine<D>,
    D: Drop,
    S: Source + Drop,
    K: Sink + Drop,
    Di: Dialer,
    P: Pacer + Drop,
    C: Clock + Drop,
    R: Wait + Drop,
> {
    pub rt: R,
    pub alloc: Global,
    pub hub: Arc<Hub<M, D>>,
    pub pass: Pass<M, D>,
    pub port: Port,
    /// the names of the devices, where the connection's own messages say which it is
    pub names: Option<Arc<Names>>,
    /// how many bytes may be read on a connection
    pub budget: u64,
    pub task: Task<S, K, Di, P, C>,
    pub ghost own: { IsPassOf (arc_value hub) pass },
}

impl<
    M: StepRelation<Event = PortEvent, Answer = PortAnswer> + Machine<D>,
    D: Drop,
    S: Source + Drop,
    K: Sink + Drop,
    Di: Dialer,
    P: Pacer + Drop,
    C: Clock + Drop,
    R: Wait + Drop,
> Job for PortJob<M, D, S, K, Di, P, C, R> {
    ghost use Rattle.std.specs.Arc.{arc_value};
    ghost use Rattle.std.specs.Option.{option_map};
    ghost use Rattle.shared_machine.specs.Passes.{IsPassOf};
    ghost use Rattle.port_jobs.specs.declared.task.Task.TheVariants.{Serve, Dial};
    ghost use Rattle.port_jobs.specs.declared.task.Work.TheVariants.{Served, Drove};
    ghost use Rattle.port_dialing.specs.Dialing.{Dialed, worker};
    ghost use Rattle.port_jobs.specs.Reports.{IsServed};
    ghost use Rattle.port_session.specs.Answering.{sides};

    type Report = Work<M, D, S, K, Di, P>;

    ghost reports = { λ job report. elim job.task [
      | Serve link ↦ elim report [
        | Served pass source sink device end ↦ IsPassOf (arc_value job.hub) pass × (pass.caller ≡ job.pass.caller)
            × IsServed M.steps M.refusal M.decks_left (arc_value job.hub).start.0 job.pass.caller job.pass.seen pass.seen job.port (option_map arc_value job.names) link.number job.budget
            (sides (S.left link.source) (S.faults link.source) (K.written link.sink) (K.faults link.sink))
            (sides (S.left source) (S.faults source) (K.written sink) (K.faults sink)) device end
        | Drove pass dialer pacer starved ↦ ⊥
      ]
      | Dial place di p c ↦ elim report [
        | Served pass source sink device end ↦ ⊥
        | Drove pass dialer pacer starved ↦ IsPassOf (arc_value job.hub) pass × (pass.caller ≡ job.pass.caller)
            × Dialed M.steps M.refusal M.decks_left (arc_value job.hub).start.0 job.pass.caller job.port job.budget
            (worker (Di.links di) (Di.calls di) (P.paces p) (P.stops p) (C.time c) job.pass.seen)
            (worker (Di.links dialer) (Di.calls dialer) (P.paces pacer) (P.stops pacer) (C.time c) pass.seen) starved
      ]
    ] };

    fn run(self) -> Work<M, D, S, K, Di, P> {
        let PortJob {
            rt,
            alloc,
            hub,
            mut pass,
            port,
            names,
            budget,
            task,
        } = self;
        match task {
            Task::Serve(link) => {
                let Link {
                    number,
                    side: _,
                    source,
                    mut sink,
                } = link;
                let (source, device, end) = serve(
                    &rt, alloc, &hub, &mut pass, port, &names, number, source, &mut sink, budget,
                );
                Work::Served {
                    pass,
                    source,
                    sink,
                    device,
                    end,
                }
            }
            Task::Dial {
                place,
                mut dialer,
                mut pacer,
                mut clock,
            } => {
                let starved = dial_all(
                    &rt,
                    alloc,
                    &hub,
                    &mut pass,
                    &port,
                    &place,
                    &mut dialer,
                    &mut pacer,
                    &mut clock,
                    budget,
                );
                Work::Drove {
                    pass,
                    dialer,
                    pacer,
                    starved,
                }
            }
        }
    }
}
