//! From bytes to the entry that they spell.
ghost use Rattle.std.specs.Prelude.{◌≡◌, IfOk, IfSome, OnOk, Some, true};
ghost use Rattle.mos_codec.specs.Codec.{IsEncodedBy};
ghost use Rattle.mos_codec.specs.Decoding.{IsFirst, start_decoder};
ghost use Rattle.mos_edits.specs.Carried.{edit_message};
ghost use Rattle.mos_edits.specs.Entries.{Entry as JournalEntry};
ghost use Rattle.mos_values.specs.Sound.{IsSound};
ghost use Rattle.mos_values.specs.declared.message.Envelope.{Envelope as Enveloped};
ghost use Rattle.entry_spellings.specs.Spellings.{IsSpelled, Spells, entry_in as entry_in_message};

use crate::writing::spelled_bytes;
use mos_codec::{DecodeFault, Decoder, EncodeFault};
use mos_edits::edit_of_message;
use mos_fields::{NoMemory, let_go};
use mos_values::Envelope;
use rundown_log::Entry;
use std::alloc::Global;

/// The most bytes of a message: 8,388,608 code units.
const MOST_BYTES: usize = 16_777_216;

/// Feeds bytes to a decoder to which nothing was fed; what is rejected doesn't matter.
fn feed_all(decoder: &mut Decoder, bytes: &[u8]) -> Result<(), NoMemory>
    requires { decoder.old ≡ start_decoder }
    ensures { (e : Enveloped) → IsEncodedBy bytes.now e → OnOk result (IsFirst e (decoder.new).ready) }
{
    match decoder.feed(bytes) {
        Ok(()) => Ok(()),
        Err(DecodeFault::Refused { .. }) => Ok(()),
        Err(DecodeFault::NoMemory) => Err(NoMemory),
    }
}

/// The envelope that the bytes begin with; where they are the encoding of one, it is that one.
fn first_envelope(alloc: Global, bytes: &[u8]) -> Result<Option<Envelope>, NoMemory>
    ensures first { (e : Enveloped) → IsEncodedBy bytes.now e → IfOk result (λ o. o ≡ Some e) }
    ensures sound { IfOk result (λ o. IfSome o (λ e. IsSound e.message)) }
{
    let mut decoder = Decoder::new(alloc);
    feed_all(&mut decoder, bytes)?;
    Ok(decoder.next())
}

/// The entry of the edit that an envelope carries.
fn entry_in(envelope: Envelope) -> Option<Entry>
    ensures is { result ≡ entry_in_message envelope.message }
    ensures sound { IsSound envelope.message → IfSome result (λ e. IsSound (edit_message e.edit)) }
{
    match edit_of_message(envelope.message) {
        Some(edit) => Some(Entry::new(edit)),
        None => None,
    }
}

/// The entry that the bytes begin with; where they are the spelling of one, it is that one.
fn first_entry(alloc: Global, bytes: &[u8]) -> Result<Option<Entry>, NoMemory>
    ensures first { (e : JournalEntry) → Spells bytes.now e → IfOk result (λ o. o ≡ Some e) }
    ensures sound { IfOk result (λ o. IfSome o (λ e. IsSound (edit_message e.edit))) }
{
    match first_envelope(alloc, bytes)? {
        Some(envelope) => Ok(entry_in(envelope)),
        None => Ok(None),
    }
}

/// Whether the bytes are the spelling of an entry.
fn is_spelling(alloc: Global, bytes: &[u8], e: &Entry) -> Result<bool, NoMemory>
    requires { IsSound (edit_message e.now.edit) }
    ensures yes { IfOk result (λ b. b ≡ true → Spells bytes.now e.now) }
    ensures no { Spells bytes.now e.now → IfOk result (λ b. b ≡ true) }
{
    match spelled_bytes(alloc, e) {
        Ok(own) => Ok(own.as_slice() == bytes),
        Err(EncodeFault::TooLong) => Ok(false),
        Err(EncodeFault::NoMemory) => Err(NoMemory),
    }
}

/// The entry, if the bytes are its spelling.
fn if_spelled(alloc: Global, bytes: &[u8], e: Entry) -> Result<Option<Entry>, NoMemory>
    requires { IsSound (edit_message e.edit) }
    ensures some { IfOk result (λ o. IfSome o (λ f. Spells bytes.now f)) }
    ensures own { Spells bytes.now e → IfOk result (λ o. o ≡ Some e) }
{
    if is_spelling(alloc, bytes, &e)? {
        return Ok(Some(e));
    }
    let_go(e);
    Ok(None)
}

/// The entry whose spelling these bytes are; `None` where they are the spelling of no entry. The only error is that memory
/// runs out.
pub fn read_entry(alloc: Global, bytes: &[u8]) -> Result<Option<Entry>, NoMemory>
    ensures { IfOk result (λ o. IsSpelled bytes.now o) }
{
    if bytes.len() > MOST_BYTES {
        return Ok(None);
    }
    match first_entry(alloc, bytes)? {
        Some(entry) => if_spelled(alloc, bytes, entry),
        None => Ok(None),
    }
}
