//! A machine that notes what it is told.
use mos_fields::{MosTime, Zone};
use mos_values::Message;
use port_events::{PortAnswer, PortEvent, Side, What};
use shared_machine::{Machine, NoMemory, StepRelation};
use std::alloc::Global;

/// Notes five characters for each event: a letter, a letter of the port, the device, the connection, and a space. It answers
/// each message by a heartbeat, and sends one on each connection that it opened.
///
/// The letters are `A` accepted, `H` heard, `I` ended in, `D` dialed, `N` next, `W` answered, `B` beat, `O` ended out, and `u`,
/// `l` and `e` for the ports.
#[derive(Drop)]
pub struct Noting {
    pub log: Vec<u8>,
    // whether the heartbeat is still to be sent
    due: bool,
}

/// The time of all tests.
pub fn time() -> MosTime {
    MosTime {
        year: 2000,
        month: 1,
        day: 1,
        hour: 0,
        minute: 0,
        second: 0,
        millis: None,
        zone: Zone::None,
    }
}

fn letter(what: &What) -> u8 {
    match what {
        What::Accepted => b'A',
        What::Heard(_) => b'H',
        What::EndedIn => b'I',
        What::Dialed(_) => b'D',
        What::Next(_) => b'N',
        What::Answered(_) => b'W',
        What::Beat => b'B',
        What::EndedOut => b'O',
    }
}

/// The letter of a port.
pub fn side_letter(side: Side) -> u8 {
    match side {
        Side::Upper => b'u',
        Side::Lower => b'l',
        Side::Editor => b'e',
    }
}

/// The digit of a number, or a question mark.
pub fn digit(number: u64) -> u8 {
    if number < 10 {
        b'0' + number as u8
    } else {
        b'?'
    }
}

fn heartbeat() -> PortAnswer {
    PortAnswer::Say(Message::Heartbeat(time()))
}

impl Noting {
    pub fn new(alloc: Global) -> Self {
        Noting {
            log: Vec::new(alloc),
            due: false,
        }
    }

    // The heartbeat, where it wasn't sent yet.
    fn next(&mut self) -> PortAnswer {
        if !self.due {
            return PortAnswer::Nothing;
        }
        self.due = false;
        heartbeat()
    }

    fn answer(&mut self, what: &What) -> PortAnswer {
        match what {
            What::Accepted | What::Beat => PortAnswer::Done,
            What::Heard(_) => heartbeat(),
            What::Dialed(_) => {
                self.due = true;
                PortAnswer::Done
            }
            What::Next(_) => self.next(),
            What::Answered(_) | What::EndedIn | What::EndedOut => PortAnswer::Taken,
        }
    }

    fn note(&mut self, event: &PortEvent) -> Result<(), NoMemory> {
        let note = [
            letter(&event.what),
            side_letter(event.side),
            digit(event.device.into()),
            digit(event.link),
            b' ',
        ];
        match self.log.extend_from_slice(&note) {
            Ok(()) => Ok(()),
            Err(_) => Err(NoMemory),
        }
    }
}

impl StepRelation for Noting {
    type Event = PortEvent;

    type Answer = PortAnswer;

    ghost steps = { λ s event answer t. Unit {0} };

    ghost refusal = { λ s t. Unit {0} };

    ghost decks_left = { λ _. 0 };
}

impl Machine<()> for Noting {
    fn step(&mut self, _rest: &mut (), event: &PortEvent) -> Result<PortAnswer, NoMemory> {
        self.note(event)?;
        Ok(self.answer(&event.what))
    }

    ghost refusal_reflexive = { λ x. tt };

    ghost refusal_transitive = { λ x y z p q. tt };
}
