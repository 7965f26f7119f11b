//! Ports of this machine.
ghost use Rattle.std.specs.Prelude.{◌≡◌, ◌≤◌, IfOk, IfSome, OnErr, OnOk};
ghost use Rattle.mos_io.specs.Counts.{Rose};
ghost use Rattle.port_links.specs.Links.{Accepts};
ghost use Rattle.port_tcp.specs.Counted.{coming as coming_of};
ghost use Rattle.port_tcp.specs.Sides.{CameAt};

use crate::at_port::MOST_CONNECTIONS;
use crate::cause::Cause;
use crate::common::Common;
use crate::counting::count_one;
use crate::ending::is_ending;
use crate::stream::{TcpSink, TcpSource, accepted_link};
use connection_lines::{accepted_line, full_line, stalled_line, works_line};
use mos_io::Failed;
use port_events::Side;
use port_links::{Link, Listener};
use stamped_lines::say;
use std::net::{SocketAddr, TcpListener};
use std::sync::Arc;
use std::thread::sleep;
use std::time::{Clock, Duration, SystemTime, UNIX_EPOCH};

// How long to wait before the next attempt, in milliseconds: at first, and at most. Each pause is twice as long as that before
// it.
const FIRST: u64 = 50;

const MOST: u64 = 1_000;

// Why no connection was taken.
#[derive(Clone, Copy)]
enum Refusal {
    // The program is to end.
    Ending,
    // It was closed at once, since the port has as many as it takes.
    Full,
    // None could be accepted, or there was no memory for it.
    Fault(Cause),
}

// The second in which it is now; 0 where the clock can't be read.
fn second_now<R: Clock>(rt: &R) -> u64 {
    match SystemTime::now(rt) {
        Ok(now) => match now.duration_since(UNIX_EPOCH) {
            Ok(passed) => passed.as_secs(),
            Err(_) => 0,
        },
        Err(_) => 0,
    }
}

/// A port of this machine, at which others connect. How many connections are to come isn't observable.
///
/// A connection that is gone before it is accepted, or for which the system has no descriptor or no memory, is no fault of the
/// port: it tries again after 50 milliseconds, and then after pauses that grow to a second, for as long as it takes. While it
/// has 4,000 connections, a further one is closed at once. It fails only where another port of the program ended since a
/// connection couldn't be served: then all of them end, and the program with them.
///
/// Of each connection it says on standard error that it came, and from where; of attempts that fail in a row the second one,
/// with its cause, and that the port works again; and, at most once a second, that it takes no more.
#[derive(Drop)]
pub struct TcpPort<R: Clock + AllocGlobal + Eprint + Drop> {
    rt: R,
    listener: TcpListener,
    side: Side,
    common: Arc<Common>,
    faults: u64,
}

impl<R: Clock + AllocGlobal + Eprint + Drop> TcpPort<R> {
    /// The port at which `listener` listens. Its connections are at `side`, and have the next numbers of `common`. It had no
    /// fault yet.
    pub fn new(rt: R, listener: TcpListener, side: Side, common: Arc<Common>) -> Self
        ensures side { result.side ≡ side }
        ensures faults { result.faults ≡ 0 }
    {
        if let Ok(address) = listener.local_addr() {
            common.at(side).listen(address.port());
        }
        TcpPort {
            rt,
            listener,
            side,
            common,
            faults: 0,
        }
    }

    // Says that the connection of this number came.
    fn say_accepted(&self, number: u64, from: SocketAddr) {
        let alloc = self.rt.alloc();
        if let Ok(from) = from.to_string(alloc) {
            let line = accepted_line(alloc, number, self.side, from.as_str());
            say(&self.rt, alloc, false, line);
        }
    }

    // One attempt.
    fn try_accept(&self) -> Result<Link<TcpSource, TcpSink>, Refusal>
        ensures { IfOk result (λ link. link.side ≡ self.now.side) }
    {
        let (stream, from) = match self.listener.accept() {
            Ok(came) => came,
            Err(fault) => return Err(Refusal::Fault(Cause::of_system(&fault))),
        };
        if is_ending(&self.rt, self.rt.alloc(), &self.common) {
            return Err(Refusal::Ending);
        }
        if !self.common.at(self.side).has_room() {
            return Err(Refusal::Full);
        }
        match accepted_link(self.rt.alloc(), &self.common, self.side, stream) {
            Ok(link) => {
                self.say_accepted(link.number, from);
                Ok(link)
            }
            Err(_) => Err(Refusal::Fault(Cause::NO_MEMORY)),
        }
    }

    // Says that the port fails, at the second of the attempts in a row.
    fn say_stalled(&self, attempt: u64, cause: Cause) {
        if attempt == 1 {
            let alloc = self.rt.alloc();
            if let Ok(word) = cause.word(alloc) {
                let line = stalled_line(alloc, self.side, word.as_str());
                say(&self.rt, alloc, true, line);
            }
        }
    }

    // Says that it works again, where it was said that it fails.
    fn say_works(&self, attempt: u64) {
        if attempt > 1 {
            let alloc = self.rt.alloc();
            say(&self.rt, alloc, false, works_line(alloc, self.side));
        }
    }

    // Says that it takes no more, where that wasn't said in the same second.
    fn say_full(&self) {
        let alloc = self.rt.alloc();
        if self.common.at(self.side).is_news(second_now(&self.rt)) {
            let line = full_line(alloc, self.side, MOST_CONNECTIONS);
            say(&self.rt, alloc, true, line);
        }
    }

    // Attempts, until one succeeds, or the program is to end.
    fn accept_soon(&self) -> Option<Link<TcpSource, TcpSink>>
        ensures { IfSome result (λ link. link.side ≡ self.now.side) }
    {
        let mut pause = FIRST;
        let mut attempt = 0u64;
        'next: for _ in 0..u64::MAX {
            if is_ending(&self.rt, self.rt.alloc(), &self.common) {
                return None;
            }
            match self.try_accept() {
                Ok(link) => {
                    self.say_works(attempt);
                    return Some(link);
                }
                Err(Refusal::Ending) => return None,
                Err(Refusal::Full) => self.say_full(),
                Err(Refusal::Fault(cause)) => {
                    self.say_stalled(attempt, cause);
                    attempt = attempt.saturating_add(1);
                    sleep(&self.rt, Duration::from_millis(pause));
                    pause = pause.saturating_mul(2).min(MOST);
                }
            }
        }
        None
    }
}

impl<R: Clock + AllocGlobal + Eprint + Drop> Listener for TcpPort<R> {
    ghost use Rattle.std.specs.Prelude.{None};

    type S = TcpSource;

    type K = TcpSink;

    ghost coming = { λ _. None };

    ghost faults = { λ p. p.faults };

    fn accept(&mut self) -> Result<Option<Link<TcpSource, TcpSink>>, Failed>
        ensures gives { IfOk result (λ link. Accepts coming_of coming_of link) }
        ensures rises { self.old.faults ≤ self.new.faults }
        ensures failed { OnErr result (Rose self.old.faults self.new.faults) }
        ensures kept { OnErr result (coming_of ≡ coming_of) }

        // It never says that none comes, and a connection that came is no fault.
        ensures came { IfOk result (λ link. CameAt self.old.side link) }
        ensures counted { OnOk result (self.new.faults ≡ self.old.faults) }
        ensures side { self.new.side ≡ self.old.side }
    {
        match self.accept_soon() {
            Some(link) => Ok(Some(link)),
            None => {
                self.common.at(self.side).listen(0);
                count_one(&mut self.faults);
                Err(Failed)
            }
        }
    }
}
