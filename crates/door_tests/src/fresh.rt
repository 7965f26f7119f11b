//! A dialer whose twins can dial.
ghost use Rattle.std.specs.Prelude.{◌≡◌, ◌≤◌};
ghost use Rattle.mos_io.specs.Counts.{Rose};

use crate::texts::bytes_of;
use mos_fields::NoMemory;
use mos_io::{Failed, MemSink, MemSource};
use port_events::Side;
use port_links::{Dialer, Link, Place};
use std::alloc::Global;

/// Opens so many connections, whatever the place, each of which gives one heartbeat; every other dial fails. A twin opens as
/// many. The connections have the numbers from 7 on.
#[derive(Drop)]
pub struct Fresh {
    alloc: Global,
    most: u64,
    calls: u64,
    faults: u64,
}

fn count_one(count: &mut u64)
    ensures rose { Rose count.old count.new }
    ensures rises { count.old ≤ count.new }
{
    *count = count.saturating_add(1);
}

// A connection of this number.
fn link(alloc: Global, number: u64) -> Result<Link<MemSource, MemSink>, NoMemory> {
    let bytes = bytes_of(alloc, b"a")?;
    Ok(Link {
        number,
        side: Side::Upper,
        source: MemSource::new(bytes, Vec::new(alloc), Vec::new(alloc)),
        sink: MemSink::new(alloc, Vec::new(alloc)),
    })
}

impl Fresh {
    /// A dialer of so many connections.
    pub fn new(alloc: Global, most: u64) -> Self {
        Fresh {
            alloc,
            most,
            calls: 0,
            faults: 0,
        }
    }

    // The connection of this call.
    fn open(&self, call: u64) -> Option<Link<MemSource, MemSink>> {
        if call >= self.most {
            return None;
        }
        match link(self.alloc, call.saturating_add(7)) {
            Ok(link) => Some(link),
            Err(_) => None,
        }
    }
}

impl Dialer for Fresh {
    ghost use Rattle.std.specs.Prelude.{None};

    type S = MemSource;

    type K = MemSink;

    ghost links = { λ _. None };

    ghost calls = { λ d. d.calls };

    ghost faults = { λ d. d.faults };

    fn dial(&mut self, _place: &Place) -> Result<Link<MemSource, MemSink>, Failed> {
        let call = self.calls;
        count_one(&mut self.calls);
        match self.open(call) {
            Some(link) => Ok(link),
            None => {
                count_one(&mut self.faults);
                Err(Failed)
            }
        }
    }

    fn twin(&self) -> Result<Self, NoMemory> {
        Ok(Fresh::new(self.alloc, self.most))
    }
}
