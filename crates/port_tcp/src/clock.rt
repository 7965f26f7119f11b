//! The system's time.
ghost use Rattle.std.specs.Prelude.{◌≡◌};
ghost use Rattle.moments.specs.Moments.{IsMoment};

use moments::{first_time, moment_now};
use mos_fields::{MosTime, NoMemory};
use mos_io::Clock;
use std::time::Clock as SystemsClock;

/// Tells the system's time in UTC, in whole seconds. It isn't observable. Where the system's can't be read, or is past
/// the year 9999, it tells the last one again, at first the begin of 1970.
#[derive(Drop)]
pub struct SystemClock<R: SystemsClock + Copy + Drop> {
    rt: R,
    last: MosTime,
}

impl<R: SystemsClock + Copy + Drop> SystemClock<R> {
    /// A clock over the system's. Until it reads that one it tells the begin of 1970.
    pub fn new(rt: R) -> Self
        ensures { IsMoment 0 result.last }
    {
        SystemClock {
            rt,
            last: first_time(),
        }
    }
}

impl<R: SystemsClock + Copy + Drop> Clock for SystemClock<R> {
    ghost use Rattle.std.specs.Prelude.{None};

    ghost time = { λ _. None };

    fn now(&mut self) -> MosTime {
        if let Some(now) = moment_now(&self.rt) {
            self.last = now;
        }
        self.last
    }

    fn twin(&self) -> Result<Self, NoMemory> {
        Ok(SystemClock {
            rt: self.rt,
            last: self.last,
        })
    }
}
