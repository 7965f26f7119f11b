//! A dialer that reaches one port.
ghost use Rattle.std.specs.Prelude.{◌≡◌};

use crate::ends::{Patient, Telling, count_one};
use crate::signs::{Sign, share};
use mos_fields::NoMemory;
use mos_io::{Failed, MemSource};
use port_events::Side;
use port_links::{Dialer, Link, Place};
use std::alloc::Global;

/// Opens a connection at each dial to its port, and fails at every other. The other end of a connection says nothing, and is at
/// its end at once; what is written to it gives the sign.
#[derive(Drop)]
pub struct Reaching {
    alloc: Global,
    port: u16,
    sign: Sign,
    calls: u64,
    faults: u64,
}

// A connection of this number.
fn link(alloc: Global, number: u64, sign: &Sign) -> Result<Link<Patient, Telling>, NoMemory> {
    let sign = share(sign)?;
    let silent = MemSource::new(Vec::new(alloc), Vec::new(alloc), Vec::new(alloc));
    Ok(Link {
        number,
        side: Side::Upper,
        source: Patient::new(silent, Vec::new(alloc)),
        sink: Telling::new(Some(sign)),
    })
}

impl Reaching {
    /// A dialer that reaches this port.
    pub fn new(alloc: Global, port: u16, sign: Sign) -> Self {
        Reaching {
            alloc,
            port,
            sign,
            calls: 0,
            faults: 0,
        }
    }

    // The connection of this call, if the place has the port.
    fn open(&self, place: &Place, call: u64) -> Option<Link<Patient, Telling>> {
        if place.port != self.port {
            return None;
        }
        match link(self.alloc, call.saturating_add(100), &self.sign) {
            Ok(link) => Some(link),
            Err(_) => None,
        }
    }
}

impl Dialer for Reaching {
    ghost use Rattle.std.specs.Prelude.{None};

    type S = Patient;

    type K = Telling;

    ghost links = { λ _. None };

    ghost calls = { λ d. d.calls };

    ghost faults = { λ d. d.faults };

    fn dial(&mut self, place: &Place) -> Result<Link<Patient, Telling>, Failed> {
        let call = self.calls;
        count_one(&mut self.calls);
        match self.open(place, call) {
            Some(link) => Ok(link),
            None => {
                count_one(&mut self.faults);
                Err(Failed)
            }
        }
    }

    fn twin(&self) -> Result<Self, NoMemory> {
        let sign = share(&self.sign)?;
        Ok(Reaching::new(self.alloc, self.port, sign))
    }
}
