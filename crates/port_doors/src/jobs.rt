//! The jobs that doors and peers give.
ghost use Rattle.std.specs.Prelude.{◌≡◌, ◌≢◌, IfOk, None};
ghost use Rattle.std.specs.Arc.{arc_value};
ghost use Rattle.std.specs.Option.{option_map};
ghost use Rattle.port_jobs.specs.declared.task.Task.TheVariants.{Serve, Dial};
ghost use Rattle.shared_machine.specs.Passes.{IsPassOf};

use crate::calls::Call;
use crate::copies::{copy_port, share_hub, share_names};
use crate::door::DoorPort;
use mos_fields::{NoMemory, pair_ok};
use mos_io::{Clock, Pacer, Sink, Source};
use port_events::{PortAnswer, PortEvent};
use port_jobs::{PortJob, Task};
use port_links::{Dialer, Link};
use shared_machine::{Hub, Machine, Pass, StepRelation};
use std::alloc::Global;
use std::sync::{Arc, Wait};

/// The job of the worker that serves this connection at the door's port.
pub(crate) fn serving_job<
    M: StepRelation<Event = PortEvent, Answer = PortAnswer> + Machine<D>,
    D: Drop,
    S: Source + Drop,
    K: Sink + Drop,
    Di: Dialer,
    P: Pacer + Drop,
    C: Clock + Drop,
    R: Wait + Copy + Drop,
>(
    rt: &R,
    alloc: Global,
    hub: &Arc<Hub<M, D>>,
    pass: &mut Pass<M, D>,
    at: &DoorPort,
    link: Link<S, K>,
) -> Result<PortJob<M, D, S, K, Di, P, C, R>, NoMemory>
    requires { IsPassOf (arc_value hub.now) pass.old }
    ensures same { pass.new ≡ pass.old }
    ensures port { IfOk result (λ job. job.port ≡ at.now.port) }
    ensures names { IfOk result (λ job. option_map arc_value job.names ≡ option_map arc_value at.now.names) }
    ensures budget { IfOk result (λ job. job.budget ≡ at.now.budget) }
    ensures task { IfOk result (λ job. job.task ≡ Serve link) }
    ensures hub { IfOk result (λ job. arc_value job.hub ≡ arc_value hub.now) }
    ensures caller { IfOk result (λ job. (job.pass.seen ≡ pass.old.seen) × (job.pass.caller ≢ pass.old.caller)) }
{
    let (port, names) = pair_ok(copy_port(&at.port), share_names(&at.names))?;
    let (theirs, own) = share_hub(hub, pass)?;
    Ok(PortJob {
        rt: *rt,
        alloc,
        hub: theirs,
        pass: own,
        port,
        names,
        budget: at.budget,
        task: Task::Serve(link),
    })
}

/// The job of the worker that makes this call, again and again.
pub(crate) fn dialing_job<
    M: StepRelation<Event = PortEvent, Answer = PortAnswer> + Machine<D>,
    D: Drop,
    S: Source + Drop,
    K: Sink + Drop,
    Di: Dialer,
    P: Pacer + Drop,
    C: Clock + Drop,
    R: Wait + Copy + Drop,
>(
    rt: &R,
    alloc: Global,
    hub: &Arc<Hub<M, D>>,
    pass: &mut Pass<M, D>,
    call: Call,
    budget: u64,
    dialer: Di,
    pacer: P,
    clock: C,
) -> Result<PortJob<M, D, S, K, Di, P, C, R>, NoMemory>
    requires { IsPassOf (arc_value hub.now) pass.old }
    ensures same { pass.new ≡ pass.old }
    ensures port { IfOk result (λ job. job.port ≡ call.port) }
    ensures names { IfOk result (λ job. job.names ≡ None) }
    ensures budget { IfOk result (λ job. job.budget ≡ budget) }
    ensures task { IfOk result (λ job. job.task ≡ Dial call.place dialer pacer clock) }
    ensures hub { IfOk result (λ job. arc_value job.hub ≡ arc_value hub.now) }
    ensures caller { IfOk result (λ job. (job.pass.seen ≡ pass.old.seen) × (job.pass.caller ≢ pass.old.caller)) }
{
    let (theirs, own) = share_hub(hub, pass)?;
    let Call { port, place } = call;
    Ok(PortJob {
        rt: *rt,
        alloc,
        hub: theirs,
        pass: own,
        port,
        names: None,
        budget,
        task: Task::Dial {
            place,
            dialer,
            pacer,
            clock,
        },
    })
}
