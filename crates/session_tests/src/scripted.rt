//! A machine that answers as it is told to.
use mos_fields::{MosTime, Zone, let_go};
use mos_values::Message;
use port_events::{PortAnswer, PortEvent, What};
use shared_machine::{Machine, NoMemory, StepRelation};
use std::alloc::Global;

/// Notes a letter for each event, and answers each by the next letter of its replies:
/// `d` done, `b` a heartbeat, `q` roReqAll, `n` nothing, `t` taken, `u` unasked, `s` stale, `m` no memory; `n` past them.
///
/// The events are `A` accepted, `H` heard, `I` ended in, `D` dialed, `N` next, `W` answered, `B` beat, `O` ended out.
#[derive(Drop)]
pub struct Scripted {
    pub log: Vec<u8>,
    replies: Vec<u8>,
    at: usize,
}

/// The time of all tests.
pub fn time() -> MosTime {
    MosTime {
        year: 2000,
        month: 1,
        day: 1,
        hour: 0,
        minute: 0,
        second: 0,
        millis: None,
        zone: Zone::None,
    }
}

fn letter(what: &What) -> u8 {
    match what {
        What::Accepted => b'A',
        What::Heard(_) => b'H',
        What::EndedIn => b'I',
        What::Dialed(_) => b'D',
        What::Next(_) => b'N',
        What::Answered(_) => b'W',
        What::Beat => b'B',
        What::EndedOut => b'O',
    }
}

fn reply(letter: u8) -> Result<PortAnswer, NoMemory> {
    match letter {
        b'b' => Ok(PortAnswer::Say(Message::Heartbeat(time()))),
        b'q' => Ok(PortAnswer::Say(Message::RoReqAll)),
        b'n' => Ok(PortAnswer::Nothing),
        b't' => Ok(PortAnswer::Taken),
        b'u' => Ok(PortAnswer::Unasked),
        b's' => Ok(PortAnswer::Stale),
        b'm' => Err(NoMemory),
        _ => Ok(PortAnswer::Done),
    }
}

impl Scripted {
    pub fn new(alloc: Global, replies: Vec<u8>) -> Self {
        Scripted {
            log: Vec::new(alloc),
            replies,
            at: 0,
        }
    }

    // The next letter of the replies.
    fn next_letter(&mut self) -> u8 {
        match self.replies.get(self.at) {
            Some(letter) => {
                let letter = *letter;
                self.at = self.at.saturating_add(1);
                letter
            }
            None => b'n',
        }
    }
}

impl StepRelation for Scripted {
    type Event = PortEvent;

    type Answer = PortAnswer;

    ghost steps = { λ s event answer t. Unit {0} };

    ghost refusal = { λ s t. Unit {0} };

    ghost decks_left = { λ _. 0 };
}

impl Machine<()> for Scripted {
    fn step(&mut self, _rest: &mut (), event: &PortEvent) -> Result<PortAnswer, NoMemory> {
        let letter = letter(&event.what);
        let answer = reply(self.next_letter())?;
        match self.log.push(letter) {
            Ok(()) => Ok(answer),
            Err(_) => {
                let_go(answer);
                Err(NoMemory)
            }
        }
    }

    ghost refusal_reflexive = { λ x. tt };

    ghost refusal_transitive = { λ x y z p q. tt };
}
