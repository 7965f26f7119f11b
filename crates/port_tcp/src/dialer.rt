//! Connections that this machine opens.
ghost use Rattle.std.specs.Prelude.{◌≡◌, ◌≤◌, [], ◌∷◌, None, IfOk, OnErr, OnOk};
ghost use Rattle.mos_io.specs.Counts.{Rose};
ghost use Rattle.port_links.specs.Links.{Gives};
ghost use Rattle.port_tcp.specs.Counted.{opened as opened_of};

use crate::cause::Cause;
use crate::common::Common;
use crate::counting::count_one;
use crate::stream::{TcpSink, TcpSource, opened_link};
use connection_lines::{dialed_line, ended_line, failed_line, silent_line, warns_of};
use mos_fields::{NoMemory, Text};
use mos_io::Failed;
use port_events::Side;
use port_links::{Dialer, Link, News, Place};
use port_session::Port;
use stamped_lines::say;
use std::alloc::Global;
use std::net::{Net, TcpStream};
use std::sync::atomic::{AtomicBool, Ordering};
use std::sync::{Arc, Wait};
use std::thread::sleep;
use std::time::{Clock, Duration, Instant};

// Two dials are at least so far from each other where the first one failed, or its connection was short, in milliseconds.
const LEAST: u64 = 100;

// They are so far at most, after several such ones; each pause is twice as long as that before it.
const MOST: u64 = 5_000;

// A connection is short that ended within so long, in milliseconds.
const SHORT: u64 = 1_000;

/// Connects to other machines. The connections aren't observable.
///
/// Behind a dial that failed, or a connection that was short, it pauses before the next one, from a tenth of a second up to
/// five seconds. Such a pause ends early where a connection comes from outside: the peer may be there again.
///
/// What it hears of its dials it says on standard error: each connection that was opened, and how it ended; of dials that
/// fail one after the other the first, and each whose cause is another one than that before it. A twin begins anew.
#[derive(Drop)]
pub struct TcpDialer<R: Net<Stream = TcpStream> + Clock + Wait + Eprint + Copy + Drop> {
    rt: R,
    alloc: Global,
    side: Side,
    common: Arc<Common>,
    // how long an answer is awaited
    patience: Option<Duration>,
    // whether the peer of the last connection was silent for longer
    late: Arc<AtomicBool>,
    // when the last dial began, and how many changes of connections there were then
    begun: Option<Instant>,
    changes: u64,
    // the pause that is made before the next dial
    wait: Duration,
    calls: u64,
    faults: u64,
    // why the last dial failed, if it did
    cause: Option<Cause>,
    // whether the one before it didn't, or had another cause
    is_news: bool,
}

impl<R: Net<Stream = TcpStream> + Clock + Wait + Eprint + Copy + Drop> TcpDialer<R> {
    /// A dialer, whose connections are at `side` and have the next numbers of `common`. An answer is awaited on them for as
    /// long as `patience`, without one for ever. Nothing was dialed yet. The only error is that memory runs out.
    pub fn new(
        rt: R,
        alloc: Global,
        side: Side,
        common: Arc<Common>,
        patience: Option<Duration>,
    ) -> Result<Self, NoMemory>
        ensures side { IfOk result (λ dialer. dialer.side ≡ side) }
        ensures counts { IfOk result (λ dialer. (dialer.calls ≡ 0) × (dialer.faults ≡ 0) × (dialer.cause ≡ None)) }
    {
        let late = Arc::new(alloc, AtomicBool::new(false))?;
        let changes = common.changes();
        Ok(TcpDialer {
            rt,
            alloc,
            side,
            common,
            patience,
            late,
            begun: None,
            changes,
            wait: Duration::from_millis(0),
            calls: 0,
            faults: 0,
            cause: None,
            is_news: false,
        })
    }

    // The pause before a dial that begins so long behind the last one.
    fn next_wait(&self, passed: Duration) -> Duration {
        if self.cause.is_none() && passed >= Duration::from_millis(SHORT) {
            return Duration::from_millis(0);
        }
        let longer = self
            .wait
            .saturating_mul(2)
            .max(Duration::from_millis(LEAST));
        longer.min(Duration::from_millis(MOST))
    }

    // How much is left of a pause that began with the last dial.
    fn left_of(&self, pause: Duration) -> Duration {
        match (self.begun, Instant::now(&self.rt)) {
            (Some(begun), Ok(now)) => pause.saturating_sub(now.duration_since(begun)),
            _ => Duration::from_millis(0),
        }
    }

    // Pauses before a dial, where the last one failed or its connection was short.
    fn await_turn(&mut self)
        ensures side { self.new.side ≡ self.old.side }
        ensures calls { self.new.calls ≡ self.old.calls }
        ensures faults { self.new.faults ≡ self.old.faults }
        ensures cause { self.new.cause ≡ self.old.cause }
    {
        if let (Some(begun), Ok(now)) = (self.begun, Instant::now(&self.rt)) {
            self.wait = self.next_wait(now.duration_since(begun));
            let left = self.left_of(self.wait);
            if !left.is_zero() {
                self.common.await_change(&self.rt, self.changes, left);
                let left = self.left_of(self.wait.min(Duration::from_millis(LEAST)));
                if !left.is_zero() {
                    sleep(&self.rt, left);
                }
            }
        }
        self.changes = self.common.changes();
        self.begun = match Instant::now(&self.rt) {
            Ok(now) => Some(now),
            Err(_) => None,
        };
    }

    // Says that the peer was silent for too long, where it was.
    fn say_late(&self, port: &Port) {
        if !self.late.swap(false, Ordering::SeqCst) {
            return;
        }
        if let Some(patience) = self.patience {
            let line = silent_line(self.alloc, port.side, port.mos.text(), patience.as_secs());
            say(&self.rt, self.alloc, true, line);
        }
    }

    // A connection to the place, or why there is none.
    fn connect(&self, place: &Place) -> Result<Link<TcpSource, TcpSink>, Cause>
        ensures { IfOk result (λ link. link.side ≡ self.now.side) }
    {
        let Ok(host) = host_name(self.alloc, &place.host) else {
            return Err(Cause::NO_MEMORY);
        };
        let opened = match TcpStream::connect(&self.rt, (host.as_str(), place.port)) {
            Ok(stream) => stream,
            Err(fault) => return Err(Cause::of_fault(&fault)),
        };
        let Ok(late) = Arc::try_clone(&self.late) else {
            return Err(Cause::NO_MEMORY);
        };
        match opened_link(
            self.alloc,
            &self.common,
            self.side,
            opened,
            self.patience,
            late,
        ) {
            Ok(link) => Ok(link),
            Err(_) => Err(Cause::NO_MEMORY),
        }
    }

    // Says why the last dial failed, where that is news.
    fn say_failed(&self, port: &Port, place: &Place) {
        let Some(cause) = self.cause else {
            return;
        };
        if !self.is_news {
            return;
        }
        if let Ok(word) = cause.word(self.alloc) {
            let device = port.mos.text();
            let line = failed_line(
                self.alloc,
                port.side,
                device,
                &place.host,
                place.port,
                word.as_str(),
            );
            say(&self.rt, self.alloc, true, line);
        }
    }

    // Says that the connection of this number was opened.
    fn say_opened(&self, port: &Port, place: &Place, number: u64) {
        let device = port.mos.text();
        let line = dialed_line(
            self.alloc,
            number,
            port.side,
            device,
            &place.host,
            place.port,
        );
        say(&self.rt, self.alloc, false, line);
    }
}

// The text as the system takes it.
fn host_name(alloc: Global, host: &Text) -> Result<String, NoMemory> {
    let mut chars = Vec::new(alloc);
    host.push_to(&mut chars)?;
    let mut name = String::new(alloc);
    for char in &chars {
        name.push(*char)?;
    }
    Ok(name)
}

impl<R: Net<Stream = TcpStream> + Clock + Wait + Eprint + Copy + Drop> Dialer for TcpDialer<R> {
    ghost use Rattle.std.specs.Prelude.{None};

    type S = TcpSource;

    type K = TcpSink;

    ghost links = { λ _. None };

    ghost calls = { λ d. d.calls };

    ghost faults = { λ d. d.faults };

    fn dial(&mut self, place: &Place) -> Result<Link<TcpSource, TcpSink>, Failed>
        ensures gives { IfOk result (λ link. Gives opened_of opened_of (link.number ∷ [])) }
        ensures called { Rose self.old.calls self.new.calls }
        ensures calls_rise { self.old.calls ≤ self.new.calls }
        ensures rises { self.old.faults ≤ self.new.faults }
        ensures failed { OnErr result (Rose self.old.faults self.new.faults) }
        ensures kept { OnErr result (opened_of ≡ opened_of) }

        // The connection is at the dialer's side, and is no fault.
        ensures side { IfOk result (λ link. link.side ≡ self.old.side) }
        ensures counted { OnOk result (self.new.faults ≡ self.old.faults) }
        ensures same { self.new.side ≡ self.old.side }
    {
        count_one(&mut self.calls);
        self.await_turn();
        match self.connect(place) {
            Ok(link) => {
                self.cause = None;
                Ok(link)
            }
            Err(cause) => {
                self.is_news = self.cause != Some(cause);
                self.cause = Some(cause);
                count_one(&mut self.faults);
                Err(Failed)
            }
        }
    }

    fn hear(&self, port: &Port, place: &Place, news: News) {
        match news {
            News::Failed => self.say_failed(port, place),
            News::Opened { number } => self.say_opened(port, place, number),
            News::Ended { number, end } => {
                self.say_late(port);
                let line = ended_line(self.alloc, number, port.side, port.mos.text(), end);
                say(&self.rt, self.alloc, warns_of(end), line);
            }
        }
    }

    fn twin(&self) -> Result<Self, NoMemory>
        ensures links { IfOk result (λ dialer. opened_of ≡ opened_of) }

        // The twin's connections are at the same side, and nothing was dialed by it.
        ensures side { IfOk result (λ dialer. dialer.side ≡ self.now.side) }
        ensures counts { IfOk result (λ dialer. (dialer.calls ≡ 0) × (dialer.faults ≡ 0) × (dialer.cause ≡ None)) }
    {
        let common = Arc::try_clone(&self.common)?;
        TcpDialer::new(self.rt, self.alloc, self.side, common, self.patience)
    }
}
