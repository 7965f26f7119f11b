//! From an entry to its spelling.
ghost use Rattle.std.specs.Prelude.{◌≡◌, ◌<◌, Err, IfOk, length};
ghost use Rattle.mos_codec.specs.Codec.{encoding_units};
ghost use Rattle.mos_edits.specs.Carried.{edit_message};
ghost use Rattle.mos_lexer.specs.Units.{message_limit};
ghost use Rattle.mos_values.specs.Sound.{IsSound};
ghost use Rattle.journal_bytes.specs.Journals.{log_envelope};
ghost use Rattle.entry_spellings.specs.Spellings.{Spells};

use journal_bytes::entry_envelope;
use mos_codec::{EncodeFault, encoded};
use mos_fields::let_go;
use rundown_log::Entry;
use std::alloc::Global;

/// The spelling of an entry, whose edit has to be sound.
///
/// # Errors
/// `TooLong` exactly where it has more than 8,388,608 code units, and there is memory for it: no reader takes a message of
/// more. `NoMemory` where memory runs out.
pub fn spelled_bytes(alloc: Global, e: &Entry) -> Result<Vec<u8>, EncodeFault>
    requires { IsSound (edit_message e.now.edit) }
    ensures spells { IfOk result (λ bytes. Spells bytes.items e.now) }
    ensures too_long { result ≡ Err EncodeFault.TooLong → message_limit < length (encoding_units (log_envelope e.now.edit)) }
{
    e.has_ro_of_edit();
    let envelope = match entry_envelope(alloc, e.edit()) {
        Ok(envelope) => envelope,
        Err(_) => return Err(EncodeFault::NoMemory),
    };
    let bytes = encoded(alloc, &envelope);
    let_go(envelope);
    bytes
}
