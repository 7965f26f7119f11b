//! Pauses that last, and end early.
ghost use Rattle.std.specs.Prelude.{◌≡◌, ◌≢◌, ◌≤◌, IfOk, None, false};
ghost use Rattle.std.specs.Arc.{arc_value};
ghost use Rattle.std.specs.Option.{option_map};
ghost use Rattle.mos_io.specs.Paces.{StopsBy, TakesPace};
ghost use Rattle.mos_io.specs.declared.pacer.Pace.TheVariants.{Stop};
ghost use Rattle.port_tcp.specs.Pauses.{pace_of as pace_as, unseen};

use crate::common::Common;
use crate::ending::wake_ports;
use mos_fields::NoMemory;
use mos_io::{Pace, Pacer};
use std::net::{Net, TcpStream};
use std::sync::atomic::{AtomicBool, Ordering};
use std::sync::{Arc, Wait};
use std::thread::sleep;
use std::time::{Clock, Duration, Instant};

// The first pause behind one that ended early, in milliseconds. Each further one is twice as long.
const FIRST: u64 = 50;

// The ends of two pauses are at least so far from each other, in milliseconds.
const GAP: u64 = 5;

// So are two heartbeats that changes of connections ask for.
const BEAT_GAP: u64 = 100;

/// Sleeps at each pause, asks for a heartbeat now and then, and stops when it is told to. The paces aren't observable.
///
/// A pause ends early where something may be due, also where that was told before it began. A heartbeat is asked for where a
/// connection came or ended, and where none was for as long as `every`. Behind a pause the ports of the program are told where
/// one of them ended.
#[derive(Drop)]
pub struct SleepPacer<R: Clock + Wait + Copy + Drop> {
    rt: R,
    common: Arc<Common>,
    length: Duration,
    every: Duration,
    // how long the next pause is
    next: Duration,
    // the counts of moves and of changes that were seen
    moves: u64,
    changes: u64,
    // when the last pause ended, and when the last heartbeat was asked for
    ended: Option<Instant>,
    beaten: Option<Instant>,
    stop: Option<Arc<AtomicBool>>,
    stops: u64,
}

// One more stop, where the pace is that.
fn stops_after(pace: Pace, stops: u64) -> u64
    ensures rises { stops ≤ result }
    ensures stopped { StopsBy pace stops result }
{
    match pace {
        Pace::Again | Pace::Beat => stops,
        Pace::Stop => stops.saturating_add(1),
    }
}

// What is to be done behind a pause: whether it was told to stop, and whether a heartbeat is to be asked for.
fn pace_of(told: bool, beats: bool) -> Pace
    ensures { result ≡ pace_as told beats }
{
    if told {
        return Pace::Stop;
    }
    if beats {
        return Pace::Beat;
    }
    Pace::Again
}

// What tells a pacer to stop again, shared.
fn share_stop(stop: &Option<Arc<AtomicBool>>) -> Result<Option<Arc<AtomicBool>>, NoMemory>
    ensures { IfOk result (λ shared. option_map arc_value shared ≡ option_map arc_value stop.now) }
{
    match stop {
        Some(stop) => Ok(Some(Arc::try_clone(stop)?)),
        None => Ok(None),
    }
}

// The time now, where the clock can be read.
fn now_of<R: Clock>(rt: &R) -> Option<Instant> {
    match Instant::now(rt) {
        Ok(now) => Some(now),
        Err(_) => None,
    }
}

// Whether so much time has passed since then. It has where one of both times isn't known.
fn has_passed(since: Option<Instant>, now: Option<Instant>, time: Duration) -> bool {
    match (since, now) {
        (Some(since), Some(now)) => now.duration_since(since) >= time,
        _ => true,
    }
}

impl<R: Net<Stream = TcpStream> + Clock + Wait + Copy + Drop> SleepPacer<R> {
    /// A pacer whose pauses have at most this length, and end early where `common` tells so. A heartbeat is asked for where
    /// none was for as long as `every`. It stops once `stop` is true; without one it never does.
    pub fn new(
        rt: R,
        common: Arc<Common>,
        length: Duration,
        every: Duration,
        stop: Option<Arc<AtomicBool>>,
    ) -> Self
        ensures length { result.length ≡ length }
        ensures every { result.every ≡ every }
        ensures stop { result.stop ≡ stop }
        ensures stops { result.stops ≡ 0 }
    {
        let now = now_of(&rt);
        let moves = common.moves();
        let changes = common.changes();
        SleepPacer {
            rt,
            common,
            length,
            every,
            next: Duration::from_millis(FIRST).min(length),
            moves,
            changes,
            ended: now,
            beaten: now,
            stop,
            stops: 0,
        }
    }

    // Whether it was told to stop.
    fn is_told(&self) -> bool
        ensures { self.now.stop ≡ None → result ≡ false }
    {
        match &self.stop {
            Some(stop) => stop.load(Ordering::SeqCst),
            None => false,
        }
    }

    // How long the pause is, if nothing ends it early: short where a heartbeat waits for its time.
    fn pause_length(&self) -> Duration {
        if self.common.changes() != self.changes {
            return self.next.min(Duration::from_millis(BEAT_GAP));
        }
        self.next
    }

    // Sleeps until something may be due, or the time is over, and at least until the gap is over.
    fn rest(&mut self)
        ensures length { self.new.length ≡ self.old.length }
        ensures every { self.new.every ≡ self.old.every }
        ensures stop { self.new.stop ≡ self.old.stop }
        ensures stops { self.new.stops ≡ self.old.stops }
    {
        let length = self.pause_length();
        self.common.await_move(&self.rt, self.moves, length);
        wake_ports(&self.rt, &self.common);
        if let (Some(ended), Some(now)) = (self.ended, now_of(&self.rt)) {
            let gap = Duration::from_millis(GAP).min(length);
            let passed = now.duration_since(ended);
            if passed < gap {
                sleep(&self.rt, gap.saturating_sub(passed));
            }
        }
        let moves = self.common.moves();
        self.next = if moves == self.moves {
            self.next.saturating_mul(2).min(self.length)
        } else {
            Duration::from_millis(FIRST).min(self.length)
        };
        self.moves = moves;
        self.ended = now_of(&self.rt);
    }

    // Whether a heartbeat is to be asked for now. It is noted as asked for.
    fn takes_beat(&mut self) -> bool
        ensures length { self.new.length ≡ self.old.length }
        ensures every { self.new.every ≡ self.old.every }
        ensures stop { self.new.stop ≡ self.old.stop }
        ensures stops { self.new.stops ≡ self.old.stops }
    {
        let changes = self.common.changes();
        let gap = Duration::from_millis(BEAT_GAP);
        let came = changes != self.changes && has_passed(self.beaten, self.ended, gap);
        if !came && !has_passed(self.beaten, self.ended, self.every) {
            return false;
        }
        self.changes = changes;
        self.beaten = self.ended;
        true
    }

    // What is to be done after one more pause.
    fn next_pace(&mut self) -> Pace
        ensures length { self.new.length ≡ self.old.length }
        ensures every { self.new.every ≡ self.old.every }
        ensures stop { self.new.stop ≡ self.old.stop }
        ensures stops { self.new.stops ≡ self.old.stops }
        ensures goes_on { self.old.stop ≡ None → result ≢ Stop }
    {
        if self.is_told() {
            return Pace::Stop;
        }
        self.rest();
        let told = self.is_told();
        let beats = self.takes_beat();
        pace_of(told, beats)
    }
}

impl<R: Net<Stream = TcpStream> + Clock + Wait + Copy + Drop> Pacer for SleepPacer<R> {
    ghost use Rattle.std.specs.Prelude.{None};

    ghost paces = { λ _. None };

    ghost stops = { λ p. p.stops };

    fn pause(&mut self) -> Pace
        ensures taken { TakesPace unseen unseen result }
        ensures rises { self.old.stops ≤ self.new.stops }
        ensures stopped { StopsBy result self.old.stops self.new.stops }

        // What it is over stays, and without anything that tells it to stop it never does.
        ensures length { self.new.length ≡ self.old.length }
        ensures every { self.new.every ≡ self.old.every }
        ensures stop { self.new.stop ≡ self.old.stop }
        ensures goes_on { self.old.stop ≡ None → result ≢ Stop }
    {
        let pace = self.next_pace();
        self.stops = stops_after(pace, self.stops);
        pace
    }

    fn twin(&self) -> Result<Self, NoMemory>
        ensures paces { IfOk result (λ pacer. unseen ≡ unseen) }

        // The twin is over the same, and is told to stop by the same.
        ensures length { IfOk result (λ pacer. pacer.length ≡ self.now.length) }
        ensures every { IfOk result (λ pacer. pacer.every ≡ self.now.every) }
        ensures counts { IfOk result (λ pacer. pacer.stops ≡ 0) }
        ensures stop { IfOk result (λ pacer. option_map arc_value pacer.stop ≡ option_map arc_value self.now.stop) }
    {
        let stop = share_stop(&self.stop)?;
        let common = Arc::try_clone(&self.common)?;
        Ok(SleepPacer::new(self.rt, common, self.length, self.every, stop))
    }
}
