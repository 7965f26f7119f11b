//! A worker that dials.
ghost use Rattle.std.specs.Prelude.{◌≡◌, ℕ, true, false, ◌||◌, IfOk};
ghost use Rattle.shared_machine.specs.Passes.{IsPassOf};
ghost use Rattle.port_dialing.specs.Ports.{at_link};
ghost use Rattle.port_dialing.specs.Dialing.{Dialed, Tries, Try, is_last as is_last_of, is_no_memory as is_no_memory_of, is_starved as is_starved_of, is_stop as is_stop_of, is_stopped as is_stopped_of, worker};

use mos_fields::{NoMemory, pair_ok};
use mos_io::{Clock, Pace, Pacer};
use port_events::{PortAnswer, PortEvent};
use port_links::{Dialer, Link, News, Place};
use port_session::{End, Port, drive_port};
use shared_machine::{Hub, Machine, Pass, StepRelation};
use std::alloc::Global;
use std::sync::Wait;

// Whether memory was wanting, and whether the worker ends.
#[derive(Drop)]
struct Attempt {
    starved: bool,
    over: bool,
}

fn is_stop(pace: Pace) -> bool
    ensures { result ≡ is_stop_of pace }
{
    match pace {
        Pace::Stop => true,
        Pace::Again => false,
        Pace::Beat => false,
    }
}

fn is_stopped(end: &End) -> bool
    ensures { result ≡ is_stopped_of end.now }
{
    matches!(end, End::Stopped)
}

fn is_no_memory(end: &End) -> bool
    ensures { result ≡ is_no_memory_of end.now }
{
    matches!(end, End::NoMemory)
}

// The port, for the connection of this number.
fn link_port(port: &Port, number: u64) -> Result<Port, NoMemory>
    ensures { IfOk result (λ p. p ≡ at_link port.now number) }
{
    let (mos, ncs) = pair_ok(port.mos.try_clone(), port.ncs.try_clone())?;
    Ok(Port {
        side: port.side,
        device: port.device,
        link: number,
        mos,
        ncs,
    })
}

// One dial, the connection, and a pause.
fn dial_once<
    M: StepRelation<Event = PortEvent, Answer = PortAnswer> + Machine<D>,
    D: Drop,
    Di: Dialer,
    P: Pacer,
    C: Clock,
    R: Wait,
>(
    rt: &R,
    alloc: Global,
    hub: &Hub<M, D>,
    pass: &mut Pass<M, D>,
    port: &Port,
    place: &Place,
    dialer: &mut Di,
    pacer: &mut P,
    clock: &mut C,
    budget: u64,
) -> Attempt
    requires { IsPassOf hub.now pass.old }
    ensures pass { IsPassOf hub.now pass.new × (pass.new.caller ≡ pass.old.caller) }
    ensures tries { (x : Try) × Tries M.steps M.refusal M.decks_left hub.now.start.0 pass.old.caller port.now budget (worker (Di.links dialer.old) (Di.calls dialer.old) (P.paces pacer.old) (P.stops pacer.old) (C.time clock.old) pass.old.seen) (worker (Di.links dialer.new) (Di.calls dialer.new) (P.paces pacer.new) (P.stops pacer.new) (C.time clock.new) pass.new.seen) x × (result.over ≡ is_last_of x) × (result.starved ≡ is_starved_of x) }
{
    let Ok(link) = dialer.dial(place) else {
        dialer.hear(port, place, News::Failed);
        let pace = pacer.pause();
        return Attempt {
            starved: false,
            over: is_stop(pace),
        };
    };
    let Link {
        number,
        side: _,
        mut source,
        mut sink,
    } = link;
    dialer.hear(port, place, News::Opened { number });
    let Ok(here) = link_port(port, number) else {
        let news = News::Ended {
            number,
            end: End::NoMemory,
        };
        dialer.hear(port, place, news);
        let pace = pacer.pause();
        return Attempt {
            starved: true,
            over: is_stop(pace),
        };
    };
    let end = drive_port(
        rt,
        alloc,
        hub,
        pass,
        here,
        &mut source,
        &mut sink,
        pacer,
        clock,
        budget,
    );
    dialer.hear(port, place, News::Ended { number, end });
    if is_stopped(&end) {
        return Attempt {
            starved: false,
            over: true,
        };
    }
    let pace = pacer.pause();
    Attempt {
        starved: is_no_memory(&end),
        over: is_stop(pace),
    }
}

/// Dials the place, drives the connection at the port, pauses, and dials again, until the pacer stops it. Whether memory
/// was wanting in between.
///
/// There is one pause after each dial that failed, and one after each connection but for one that the pacer stopped. The
/// call waits where the dialer, the pacer, a connection or the hub does.
pub fn dial_all<
    M: StepRelation<Event = PortEvent, Answer = PortAnswer> + Machine<D>,
    D: Drop,
    Di: Dialer,
    P: Pacer,
    C: Clock,
    R: Wait,
>(
    rt: &R,
    alloc: Global,
    hub: &Hub<M, D>,
    pass: &mut Pass<M, D>,
    port: &Port,
    place: &Place,
    dialer: &mut Di,
    pacer: &mut P,
    clock: &mut C,
    budget: u64,
) -> bool
    requires { IsPassOf hub.now pass.old }
    ensures pass { IsPassOf hub.now pass.new × (pass.new.caller ≡ pass.old.caller) }
    ensures dialed { Dialed M.steps M.refusal M.decks_left hub.now.start.0 pass.old.caller port.now budget (worker (Di.links dialer.old) (Di.calls dialer.old) (P.paces pacer.old) (P.stops pacer.old) (C.time clock.old) pass.old.seen) (worker (Di.links dialer.new) (Di.calls dialer.new) (P.paces pacer.new) (P.stops pacer.new) (C.time clock.new) pass.new.seen) result }
{
    let mut starved = false;
    for _ in rt.forever() {
        let next = dial_once(
            rt, alloc, hub, pass, port, place, dialer, pacer, clock, budget,
        );
        starved = starved || next.starved;
        if next.over {
            return starved;
        }
    }
    unreachable!()
}
