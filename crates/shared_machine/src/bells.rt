//! Where callers sleep until their ticket is served.
use crate::machine::NoMemory;
use std::alloc::Global;
use std::sync::{Condvar, Wait};
use std::thread;
use std::time::Duration;

// Callers sleep in so many places. Two callers share one only where their tickets are so far apart.
const PLACES: u64 = 64;

// A sleep lasts so long at most, in seconds. No ring is lost, so this only bounds what a fault of the system could cost.
const LONGEST: u64 = 60;

/// The places in which callers sleep, each with a bell: who passes the turn on rings the bell of the next ticket alone.
///
/// Who read how often a bell was rung, and then that another ticket is served, sleeps only while the bell isn't rung
/// again; and the turn is passed on before the bell is rung. So no caller sleeps on while its ticket is served.
#[derive(Drop)]
pub(crate) struct Bells {
    bells: Vec<Condvar>,
}

impl Bells {
    /// Bells that were never rung. The only error is that memory runs out.
    pub(crate) fn new(alloc: Global) -> Result<Bells, NoMemory> {
        let mut bells = Vec::new(alloc);
        for _ in 0..PLACES {
            let Ok(()) = bells.push(Condvar::new()) else {
                return Err(NoMemory);
            };
        }
        Ok(Bells { bells })
    }

    // The bell of a ticket.
    fn bell(&self, ticket: u64) -> Option<&Condvar> {
        self.bells.get((ticket % PLACES) as usize)
    }

    /// How often the bell of this ticket was rung so far, wrapping.
    pub(crate) fn rung(&self, ticket: u64) -> u64 {
        match self.bell(ticket) {
            Some(bell) => bell.notifications(),
            None => 0,
        }
    }

    /// Sleeps until the bell of this ticket has been rung more often than `seen`, and perhaps less long.
    pub(crate) fn sleep<R: Wait>(&self, rt: &R, ticket: u64, seen: u64) {
        match self.bell(ticket) {
            Some(bell) => bell.sleep(rt, seen, Duration::from_secs(LONGEST)),
            None => thread::yield_now(),
        }
    }

    /// Wakes the callers that sleep for this ticket.
    pub(crate) fn ring(&self, ticket: u64) {
        if let Some(bell) = self.bell(ticket) {
            bell.notify_all();
        }
    }
}
