//! A reader of a script that comes in pieces.
ghost use Rattle.std.specs.Prelude.{◌≡◌, ℕ, ◌+◌, ◌≤◌, None, [], ◌∷◌, ◌++◌, List, IfOk, IsSome};
ghost use Rattle.std.specs.List.{AllByRecursion};
ghost use Rattle.world_scripts.specs.WorldEvents.{HasSoundEdit, events_of};
ghost use Rattle.world_scripts.specs.Scripts.{device_limit};
ghost use Rattle.script_reader.specs.Readers.{Ends, Feeds, HasNoEnd, HasRead, line_number};

use crate::fault::ScriptFault;
use crate::lines::{cut_line, event_line, first_line};
use crate::script::Script;
use std::alloc::Global;
use std::marker::Model;
use world_scripts::WorldEvents;

/// The most bytes of a line, without its line feed.
const LINE_LIMIT: usize = 1000;

/// Reads a script in pieces. It holds the bytes of one line, which isn't ended yet, and the events of those before it.
#[derive(Drop)]
pub struct ScriptReader {
    line: Vec<u8>,
    devices: Option<u32>,
    events: WorldEvents,
}

impl Model for ScriptReader {
    ghost use Rattle.world_scripts.specs.WorldEvents.{events_of};
    ghost use Rattle.script_reader.specs.Readers.{IsReader, Reader};

    ghost Value = { Reader };

    ghost view = { λ r. record { line = r.line.items; devices = r.devices; events = events_of r.events } };

    ghost invariant = { λ r. IsReader (record { line = r.line.items; devices = r.devices; events = events_of r.events }) };
}

impl ScriptReader {
    /// Nothing was read. It takes no memory.
    pub fn new(alloc: Global) -> Self
        ensures { HasRead result [] }
    {
        ScriptReader {
            line: Vec::new(alloc),
            devices: None,
            events: WorldEvents::new(alloc),
        }
    }

    /// The number of the line that isn't ended yet, from 1.
    fn number(&self) -> u64
        ensures { result ≡ line_number self.now }
    {
        match self.devices {
            None => 1,
            Some(_) => self.events.len() as u64 + 2,
        }
    }

    /// Adds bytes without a line feed to the line. One of more than 1,000 bytes is refused at once.
    fn hold(&mut self, bytes: &[u8]) -> Result<(), ScriptFault>
        requires { HasNoEnd bytes.now }
        ensures { (before : List ℕ) → HasRead self.old before → Feeds (before ++ bytes.now) self.new result }
    {
        if bytes.len() > LINE_LIMIT - self.line.len() {
            return Err(ScriptFault::Refused {
                line: self.number(),
            });
        }
        match self.line.extend_from_slice(bytes) {
            Err(_) => Err(ScriptFault::NoMemory),
            Ok(()) => Ok(()),
        }
    }

    /// The first line ends.
    fn end_first(&mut self) -> Result<(), ScriptFault>
        requires { self.old.devices ≡ None }
        ensures { (before : List ℕ) → HasRead self.old before → Feeds (before ++ 10 ∷ []) self.new result }
    {
        match first_line(&self.line) {
            Err(fault) => Err(fault),
            Ok(devices) => {
                self.devices = Some(devices);
                self.line.clear();
                Ok(())
            }
        }
    }

    /// A line behind the first ends.
    fn end_event(&mut self, alloc: Global) -> Result<(), ScriptFault>
        requires { IsSome self.old.devices }
        ensures { (before : List ℕ) → HasRead self.old before → Feeds (before ++ 10 ∷ []) self.new result }
    {
        match event_line(alloc, &self.line, self.number()) {
            Err(fault) => Err(fault),
            Ok(event) => match self.events.push(event) {
                Err(_) => Err(ScriptFault::NoMemory),
                Ok(()) => {
                    self.line.clear();
                    Ok(())
                }
            },
        }
    }

    /// The line ends.
    fn end_line(&mut self, alloc: Global) -> Result<(), ScriptFault>
        ensures { (before : List ℕ) → HasRead self.old before → Feeds (before ++ 10 ∷ []) self.new result }
    {
        match self.devices {
            None => self.end_first(),
            Some(_) => self.end_event(alloc),
        }
    }

    /// The rest of the line, which ends behind it.
    fn read_line(&mut self, alloc: Global, bytes: &[u8]) -> Result<(), ScriptFault>
        requires { HasNoEnd bytes.now }
        ensures { (before : List ℕ) → HasRead self.old before → Feeds (before ++ (bytes.now ++ 10 ∷ [])) self.new result }
    {
        match self.hold(bytes) {
            Err(fault) => Err(fault),
            Ok(()) => self.end_line(alloc),
        }
    }

    /// Feeds the next bytes of the script, where nothing failed before. `Refused` comes as soon as a line shows that it is
    /// none.
    pub fn feed(&mut self, alloc: Global, piece: &[u8]) -> Result<(), ScriptFault>
        ensures { (before : List ℕ) → HasRead self.old before → Feeds (before ++ piece.now) self.new result }
    {
        let mut rest = piece;
        'line: loop {
            match cut_line(rest) {
                None => return self.hold(rest),
                Some((line, behind)) => match self.read_line(alloc, line) {
                    Err(fault) => return Err(fault),
                    Ok(()) => rest = behind,
                },
            }
        }
    }

    /// The script, where the input ended behind what was fed.
    pub fn end(self) -> Result<Script, ScriptFault>
        ensures read { (bytes : List ℕ) → HasRead self bytes → Ends bytes result }
        ensures devices { IfOk result (λ s. (1 ≤ s.devices) × (s.devices ≤ device_limit)) }
        ensures sound { IfOk result (λ s. AllByRecursion HasSoundEdit (events_of s.events)) }
    {
        match self.devices {
            None => Err(ScriptFault::Refused { line: 1 }),
            Some(devices) => {
                if self.line.is_empty() {
                    Ok(Script {
                        devices,
                        events: self.events,
                    })
                } else {
                    Err(ScriptFault::Refused {
                        line: self.number(),
                    })
                }
            }
        }
    }
}
