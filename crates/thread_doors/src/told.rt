//! Workers of whose connections something is said.
use connection_lines::{ended_line, warns_of};
use mos_fields::{Text, let_go};
use mos_io::{Clock, Pacer, Sink, Source};
use named_sources::{NamedSource, Naming};
use port_events::{PortAnswer, PortEvent, Side};
use port_jobs::{Names, PortJob, Task, Work};
use port_links::{Dialer, Job, Link};
use port_session::{End, Port};
use shared_machine::{Machine, StepRelation};
use stamped_lines::say;
use std::alloc::Global;
use std::sync::{Arc, Wait};
use std::time::Clock as SystemsClock;

/// A worker's job, which says on standard error whose the connection is that was accepted, once that is known, and why it
/// ended. What became of dials the dialer hears.
#[derive(Drop)]
pub struct ToldJob<
    M: StepRelation<Event = PortEvent, Answer = PortAnswer> + Machine<D>,
    D: Drop,
    S: Source + Drop,
    K: Sink + Drop,
    Di: Dialer,
    P: Pacer + Drop,
    C: Clock + Drop,
    R: Wait + Drop,
> {
    pub job: PortJob<M, D, S, K, Di, P, C, R>,
}

// What is said of a connection that was accepted.
#[derive(Drop)]
struct Accepted {
    number: u64,
    side: Side,
    // the name of the device where the connection's own messages don't say it; else empty
    own: Text,
}

// The name of a gateway, to whose doors every connection is its own; empty where the devices have names, and for an editor.
fn own_name(alloc: Global, port: &Port, names: &Option<Arc<Names>>) -> Text {
    if names.is_some() {
        return Text::new(alloc);
    }
    match port.side {
        Side::Editor => Text::new(alloc),
        Side::Upper | Side::Lower => match port.mos.text().try_clone() {
            Ok(name) => name,
            Err(_) => Text::new(alloc),
        },
    }
}

// The names again, shared; without memory none.
fn names_of(names: &Option<Arc<Names>>) -> Option<Arc<Names>> {
    match Arc::try_clone(names.as_ref()?) {
        Ok(names) => Some(names),
        Err(_) => None,
    }
}

// What is said of the connection that the task serves, if it serves one.
fn accepted_of<S: Source + Drop, K: Sink + Drop, Di: Dialer, P: Pacer + Drop, C: Clock + Drop>(
    alloc: Global,
    port: &Port,
    names: &Option<Arc<Names>>,
    task: &Task<S, K, Di, P, C>,
) -> Option<Accepted> {
    match task {
        Task::Serve(link) => Some(Accepted {
            number: link.number,
            side: port.side,
            own: own_name(alloc, port, names),
        }),
        Task::Dial { .. } => None,
    }
}

// A connection whose source is listened to. The empty piece tells its sink that a worker serves it.
fn named_link<S: Source + Drop, K: Sink + Drop, R: Eprint + SystemsClock + Copy + Drop>(
    rt: R,
    alloc: Global,
    names: &Option<Arc<Names>>,
    link: Link<S, K>,
) -> Link<NamedSource<S, R>, K> {
    let Link {
        number,
        side,
        source,
        mut sink,
    } = link;
    let _ = sink.write_piece(&[]);
    let naming = Naming::new(rt, alloc, number, side, names_of(names));
    Link {
        number,
        side,
        source: NamedSource::new(source, naming),
        sink,
    }
}

// The task, with the source of a connection that was accepted listened to.
fn named_task<
    S: Source + Drop,
    K: Sink + Drop,
    Di: Dialer,
    P: Pacer + Drop,
    C: Clock + Drop,
    R: Eprint + SystemsClock + Copy + Drop,
>(
    rt: R,
    alloc: Global,
    names: &Option<Arc<Names>>,
    task: Task<S, K, Di, P, C>,
) -> Task<NamedSource<S, R>, K, Di, P, C> {
    match task {
        Task::Serve(link) => Task::Serve(named_link(rt, alloc, names, link)),
        Task::Dial {
            place,
            dialer,
            pacer,
            clock,
        } => Task::Dial {
            place,
            dialer,
            pacer,
            clock,
        },
    }
}

// Says why the connection ended.
fn say_ended<R: Eprint + SystemsClock + Copy + Drop>(
    rt: &R,
    alloc: Global,
    accepted: &Accepted,
    naming: &Naming<R>,
    end: End,
) {
    let Accepted { number, side, own } = accepted;
    let line = match naming.name() {
        Some(id) => ended_line(alloc, *number, *side, id.text(), end),
        None => ended_line(alloc, *number, *side, own, end),
    };
    say(rt, alloc, warns_of(end), line);
}

impl<
    M: StepRelation<Event = PortEvent, Answer = PortAnswer> + Machine<D>,
    D: Drop,
    S: Source + Drop,
    K: Sink + Drop,
    Di: Dialer,
    P: Pacer + Drop,
    C: Clock + Drop,
    R: Wait + Eprint + SystemsClock + Copy + Drop,
> Job for ToldJob<M, D, S, K, Di, P, C, R> {
    type Report = ();

    ghost reports = { λ job report. Unit {0} };

    fn run(self) {
        let ToldJob { job } = self;
        let PortJob {
            rt,
            alloc,
            hub,
            pass,
            port,
            names,
            budget,
            task,
        } = job;
        let accepted = accepted_of(alloc, &port, &names, &task);
        let task = named_task(rt, alloc, &names, task);
        let job = PortJob {
            rt,
            alloc,
            hub,
            pass,
            port,
            names,
            budget,
            task,
        };
        let work = job.run();
        if let (Some(accepted), Work::Served { source, end, .. }) = (&accepted, &work) {
            say_ended(&rt, alloc, accepted, source.naming(), *end);
        }
        let_go(work);
    }
}
