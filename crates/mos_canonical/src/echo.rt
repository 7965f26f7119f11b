//! Telling messages as they are.
ghost use Rattle.std.specs.Prelude.{◌≡◌, IfOk};
ghost use Rattle.mos_fields.specs.Characters.{bytes_of, units_of};
ghost use Rattle.mos_tables.specs.Canonical.{canonical};
ghost use Rattle.mos_values.specs.MessageViews.{envelope_events};

use line_texts::refused_line;
use mos_fields::{NoMemory, let_go};
use mos_lexer::Kind;
use mos_message_reading::{envelope_of, read_message};
use mos_messages::encode;
use mos_reader::Found;
use mos_values::Envelope;
use std::alloc::Global;
use stream_commands::Teller;

/// Tells each message in its canonical encoding, and of a rejection its line in UTF-8.
#[derive(Clone, Copy, Debug, PartialEq, Eq)]
pub struct Echo;

/// The canonical encoding of an envelope, which is let go.
fn encoded(alloc: Global, envelope: Envelope) -> Result<Vec<u8>, NoMemory>
    ensures { IfOk result (λ bytes. bytes.items ≡ bytes_of (units_of (canonical (envelope_events envelope)))) }
{
    let bytes = encode(alloc, &envelope);
    let_go(envelope);
    bytes
}

impl Teller for Echo {
    ghost use Rattle.stream_commands.specs.Lines.{refused_line as refused_line_of};
    ghost use Rattle.stream_commands.specs.Listings.{no_last};
    ghost use Rattle.mos_canonical.specs.Encoded.{AreEncoded};

    ghost told = { λ e. AreEncoded };

    ghost last = { λ e. no_last };

    ghost refusal = { λ e. refused_line_of };

    fn tell(&mut self, alloc: Global, found: Found) -> Result<Vec<u8>, NoMemory> {
        read_message();
        let envelope = envelope_of(alloc, found.value)?;
        encoded(alloc, envelope)
    }

    fn tell_last(
        &self,
        alloc: Global,
        _messages: usize,
        _units: usize,
    ) -> Result<Vec<u8>, NoMemory> {
        Ok(Vec::new(alloc))
    }

    fn tell_refusal(&self, alloc: Global, place: usize, kind: Kind) -> Result<Vec<u8>, NoMemory> {
        let line = refused_line(alloc, place, kind)?;
        Ok(line.into_bytes())
    }
}
