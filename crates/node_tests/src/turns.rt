//! Turns of a play: where something happens, what happens, and what it is answered.
use crate::texts::{message_in, text_of};
use mos_fields::{MosTime, NoMemory, Zone, let_go};
use port_events::{PortAnswer, PortEvent, Side, SoundMessage, What};
use std::alloc::Global;
use std::test::Fail;

/// A connection at a port.
#[derive(Clone, Copy)]
pub struct Place {
    device: u32,
    side: Side,
    link: u64,
}

// The number that a digit writes; 0 for `-`.
fn digit(letter: u8) -> u8 {
    letter.saturating_sub(b'0')
}

fn side_of(letter: u8) -> Option<Side> {
    match letter {
        b'u' => Some(Side::Upper),
        b'l' => Some(Side::Lower),
        b'e' => Some(Side::Editor),
        _ => None,
    }
}

fn place_at(device: u8, side: Option<Side>, link: u8) -> Option<Place> {
    match side {
        Some(side) => Some(Place {
            device: u32::from(digit(device)),
            side,
            link: u64::from(digit(link)),
        }),
        None => None,
    }
}

/// The place of a word: the digit of a device or `-`, the letter of a port, and the digit of a connection.
pub fn place_of(word: &[u8]) -> Option<Place> {
    match word {
        [device, side, link] => place_at(*device, side_of(*side), *link),
        _ => None,
    }
}

/// The time of all plays.
fn time() -> MosTime {
    MosTime {
        year: 2009,
        month: 4,
        day: 11,
        hour: 14,
        minute: 22,
        second: 7,
        millis: None,
        zone: Zone::Z,
    }
}

fn heard(message: Option<SoundMessage>) -> Option<What> {
    match message {
        Some(message) => Some(What::Heard(message)),
        None => None,
    }
}

fn answered(message: Option<SoundMessage>) -> Option<What> {
    match message {
        Some(message) => Some(What::Answered(message)),
        None => None,
    }
}

// What the verbs mean that have no text.
fn plain_what(verb: &str) -> Option<What> {
    match verb {
        "dial" => Some(What::Dialed(time())),
        "accept" => Some(What::Accepted),
        "next" => Some(What::Next(time())),
        "cut" => Some(What::EndedOut),
        "leave" => Some(What::EndedIn),
        "beat" => Some(What::Beat),
        _ => None,
    }
}

// What happens; none where there is no such verb, or its text is no message.
fn what_of(alloc: Global, verb: &str, text: &[u8]) -> Result<Option<What>, NoMemory> {
    match verb {
        "hear" => Ok(heard(message_in(alloc, text)?)),
        "back" => Ok(answered(message_in(alloc, text)?)),
        _ => Ok(plain_what(verb)),
    }
}

/// The event of a verb at a place: `dial` and `accept` a connection of this end and of the peer, `cut` and `leave` their ends,
/// `hear` and `back` a message and an answer that come, `next` the message that is wanted, `beat` a heartbeat that is.
pub fn event_of(alloc: Global, place: Place, verb: &str, text: &[u8]) -> Result<PortEvent, Fail> {
    let what = what_of(alloc, verb, text)?.ok_or("no verb, or no message")?;
    Ok(PortEvent {
        side: place.side,
        device: place.device,
        link: place.link,
        what,
    })
}

fn word(alloc: Global, text: &str) -> Result<Vec<u8>, NoMemory> {
    Vec::from_slice(alloc, text.as_bytes())
}

fn words_of(alloc: Global, answer: &PortAnswer) -> Result<Vec<u8>, NoMemory> {
    match answer {
        PortAnswer::Done => word(alloc, "done"),
        PortAnswer::Say(message) => text_of(alloc, message),
        PortAnswer::Nothing => word(alloc, "nothing"),
        PortAnswer::Taken => word(alloc, "taken"),
        PortAnswer::Unasked => word(alloc, "unasked"),
        PortAnswer::Stale => word(alloc, "stale"),
    }
}

/// The text of the message that an answer says, or the word for it. The answer is let go.
pub fn said(alloc: Global, answer: PortAnswer) -> Result<Vec<u8>, NoMemory> {
    let words = words_of(alloc, &answer);
    let_go(answer);
    words
}
