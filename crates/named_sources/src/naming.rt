//! Saying whose a connection is.
ghost use Rattle.std.specs.Prelude.{◌≡◌};
ghost use Rattle.port_looking.specs.Steps.{StandsAt};

use crate::first::First;
use crate::hearing::{Ear, Heard};
use connection_lines::{hint_line, known_line, quiet_line, stranger_line};
use mos_fields::{Id, Ids};
use port_events::Side;
use port_jobs::Names;
use stamped_lines::say;
use std::alloc::Global;
use std::sync::Arc;
use std::time::{Clock, Instant};

// Of a read that failed is said that nothing came where it took so long, in seconds.
const QUIET: u64 = 600;

/// What is known of a connection that others opened.
///
/// Where the devices have names, the mosID of its first whole message says whose it is, and is said on standard error: also
/// where it is none of them. Where its first two bytes can't begin a message, it is said what they look like.
#[derive(Drop)]
pub struct Naming<R: Eprint + Clock + Copy + Drop> {
    rt: R,
    alloc: Global,
    number: u64,
    side: Side,
    names: Option<Arc<Names>>,
    // the first bytes
    first: First,
    // hears the first message, where its name is wanted and not known yet
    ear: Option<Ear>,
    // the place of its name among the names
    device: Option<usize>,
}

// The place of the name.
fn find_place(names: &Ids, id: &Id) -> Option<usize>
    ensures { StandsAt names.now id.now result }
{
    for i in 0..names.len() {
        if let Some(name) = names.get(i) {
            if name.is(id) {
                return Some(i);
            }
        }
    }
    None
}

impl<R: Eprint + Clock + Copy + Drop> Naming<R> {
    /// Nothing is known but the connection's number and its side, and the names of the devices, if they have some.
    pub fn new(rt: R, alloc: Global, number: u64, side: Side, names: Option<Arc<Names>>) -> Self {
        let ear = match &names {
            Some(_) => Some(Ear::new(alloc)),
            None => None,
        };
        Naming {
            rt,
            alloc,
            number,
            side,
            names,
            first: First::Nothing,
            ear,
            device: None,
        }
    }

    /// The name of the device to which the connection belongs, where the devices have names, and that is known.
    pub fn name(&self) -> Option<&Id> {
        let names = self.names.as_ref()?;
        names.ids().get(self.device?)
    }

    // The first message has this mosID.
    fn note_name(&mut self, name: &Id) {
        let Some(names) = &self.names else {
            return;
        };
        self.device = find_place(names.ids(), name);
        if self.device.is_some() {
            let line = known_line(self.alloc, self.number, self.side, name.text());
            say(&self.rt, self.alloc, false, line);
        } else {
            let line = stranger_line(self.alloc, self.number, self.side, name.text());
            say(&self.rt, self.alloc, true, line);
        }
    }

    // What the first bytes look like is said, once two came.
    fn look(&mut self, piece: &[u8]) {
        if let Some(look) = self.first.look(piece) {
            let line = hint_line(self.alloc, self.number, self.side, look.hint());
            say(&self.rt, self.alloc, true, line);
        }
    }

    /// This was read.
    pub(crate) fn hear(&mut self, piece: &[u8]) {
        self.look(piece);
        let Some(ear) = self.ear.take() else {
            return;
        };
        let (heard, ear) = ear.hear(piece);
        self.ear = ear;
        if let Heard::Name(name) = &heard {
            self.note_name(name);
        }
    }

    /// The time now, where the clock can be read.
    pub(crate) fn now(&self) -> Option<Instant> {
        match Instant::now(&self.rt) {
            Ok(now) => Some(now),
            Err(_) => None,
        }
    }

    /// A read failed that began then. Where nothing came for ten minutes, that is said, unless it is an editor's.
    pub(crate) fn note_failed(&self, begun: Option<Instant>) {
        if let (Some(begun), Some(now)) = (begun, self.now()) {
            let seconds = now.duration_since(begun).as_secs();
            if seconds >= QUIET && self.side != Side::Editor {
                let line = quiet_line(self.alloc, self.number, self.side, seconds);
                say(&self.rt, self.alloc, true, line);
            }
        }
    }
}
