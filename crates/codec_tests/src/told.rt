//! Answers of readers, in few words.
use mos_fields::let_go;
use mos_lexer::Kind;
use mos_reader::{Found, ReadFault};

/// What an answer tells.
#[derive(Clone, Copy)]
pub enum Told {
    /// more has to be fed
    More,
    /// a message, where it began, and of so many events
    Message { began: usize, events: usize },
    /// the place of a rejection, and its kind
    Rejected(usize, Kind),
    NoMemory,
}

/// What an answer tells, which is let go.
pub fn answer_told(answer: Result<Option<Found>, ReadFault>) -> Told {
    match answer {
        Ok(None) => Told::More,
        Ok(Some(found)) => {
            let told = Told::Message {
                began: found.began,
                events: found.value.len(),
            };
            let_go(found);
            told
        }
        Err(ReadFault::Rejected(place, kind)) => Told::Rejected(place, kind),
        Err(ReadFault::NoMemory) => Told::NoMemory,
    }
}
