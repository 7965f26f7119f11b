//! Hearing the name in the first message of a stream.
ghost use Rattle.std.specs.Prelude.{◌≡◌, [], None};
ghost use Rattle.named_sources.specs.declared.hearing.Heard.TheVariants.{Nothing};

use mos_codec::Decoder;
use mos_fields::{Id, let_go};
use mos_values::Envelope;
use std::alloc::Global;

// At most so many code units are looked at, and a piece has at most so many bytes.
const MOST: usize = 1 << 40;

/// What was heard.
#[derive(Drop)]
pub(crate) enum Heard {
    /// No message is whole so far.
    Nothing,
    /// The first message has this mosID.
    Name(Id),
    /// No name will be heard: the stream is rejected, or there was no memory.
    Never,
}

/// Hears the stream until its first message is whole.
#[derive(Drop)]
pub(crate) struct Ear {
    decoder: Decoder,
    ghost ready: { decoder.ready ≡ [] },
}

// What a message tells that came first, or that none came, and whether the stream goes on.
fn heard_of(message: &Option<Envelope>, goes_on: bool) -> Heard
    ensures { result ≡ Nothing → message.now ≡ None }
{
    match message {
        Some(envelope) => match envelope.mos.try_clone() {
            Ok(name) => Heard::Name(name),
            Err(_) => Heard::Never,
        },
        None => {
            if goes_on {
                Heard::Nothing
            } else {
                Heard::Never
            }
        }
    }
}

// Feeds a piece.
fn hear_in(decoder: &mut Decoder, piece: &[u8]) -> Heard
    requires { decoder.old.ready ≡ [] }
    ensures { result ≡ Nothing → decoder.new.ready ≡ [] }
{
    if decoder.place() >= MOST || piece.len() >= MOST {
        return Heard::Never;
    }
    let outcome = decoder.feed(piece);
    let message = decoder.next();
    let heard = heard_of(&message, outcome.is_ok());
    let_go(message);
    heard
}

impl Ear {
    /// It heard nothing so far.
    pub(crate) fn new(alloc: Global) -> Self {
        Ear {
            decoder: Decoder::new(alloc),
        }
    }

    /// Hears the next piece. The ear comes back where nothing was heard.
    pub(crate) fn hear(self, piece: &[u8]) -> (Heard, Option<Ear>) {
        let Ear { mut decoder } = self;
        match hear_in(&mut decoder, piece) {
            Heard::Nothing => (Heard::Nothing, Some(Ear { decoder })),
            heard => {
                let_go(decoder);
                (heard, None)
            }
        }
    }
}
