//! Ends of connections that wait for signs and give them.
ghost use Rattle.std.specs.Prelude.{◌≤◌};
ghost use Rattle.mos_io.specs.Counts.{Rose};

use crate::signs::{Sign, give, wait_for};
use mos_io::{Failed, MemSource, Sink, SinkFault, Source};

/// Gives its bytes once its signs are given. A read before that waits for them, and fails after some seconds.
#[derive(Drop)]
pub struct Patient {
    held: MemSource,
    awaited: Vec<Sign>,
    faults: u64,
}

/// Counts one more, and stays at the last value of its 64 bits.
pub fn count_one(count: &mut u64)
    ensures rose { Rose count.old count.new }
    ensures rises { count.old ≤ count.new }
{
    *count = count.saturating_add(1);
}

// Waits for all of these signs. Whether they were given.
fn wait_for_all(signs: &[Sign]) -> bool {
    for sign in signs {
        if !wait_for(sign) {
            return false;
        }
    }
    true
}

impl Patient {
    /// A source of these bytes that waits for these signs.
    pub fn new(held: MemSource, awaited: Vec<Sign>) -> Self {
        Patient {
            held,
            awaited,
            faults: 0,
        }
    }
}

impl Source for Patient {
    ghost use Rattle.std.specs.Prelude.{None};

    ghost left = { λ _. None };

    ghost bound = { λ _. None };

    ghost faults = { λ s. s.faults };

    fn read(&mut self, buf: &mut [u8]) -> Result<usize, Failed> {
        if !wait_for_all(&self.awaited) {
            count_one(&mut self.faults);
            return Err(Failed);
        }
        match self.held.read(buf) {
            Ok(count) => Ok(count),
            Err(fault) => {
                count_one(&mut self.faults);
                Err(fault)
            }
        }
    }
}

/// Takes what is written, and gives its sign, if it has one, at the first piece that isn't empty.
#[derive(Drop)]
pub struct Telling {
    sign: Option<Sign>,
}

impl Telling {
    /// A sink with this sign.
    pub fn new(sign: Option<Sign>) -> Self {
        Telling { sign }
    }
}

impl Sink for Telling {
    ghost use Rattle.std.specs.Prelude.{None};

    ghost written = { λ _. None };

    ghost faults = { λ _. 0 };

    fn write_piece(&mut self, piece: &[u8]) -> Result<(), SinkFault> {
        if let Some(sign) = &self.sign {
            if !piece.is_empty() {
                give(sign);
            }
        }
        Ok(())
    }
}
