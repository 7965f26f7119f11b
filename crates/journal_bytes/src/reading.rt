//! The entries of whole messages.
ghost use Rattle.std.specs.Prelude.{◌≡◌, ◌+◌, ◌<◌, ◌^◌, ◌++◌, ℕ, List, [], ◌∷◌, Err, IfErr, IfNone, IfSome, OnOk, length};
ghost use Rattle.mos_codec.specs.Decoding.{HasTaken};
ghost use Rattle.mos_edits.specs.Entries.{entry_of};
ghost use Rattle.mos_lexer.specs.Units.{Found};
ghost use Rattle.mos_reader.specs.Answers.{fed};
ghost use Rattle.mos_edits.specs.Carried.{edit_in as edit_of};
ghost use Rattle.journal_bytes.specs.Journals.{Follows, HasNoEntry, IsDamaged, Takes, journal_fault as fault_of};

use crate::fault::JournalFault;
use mos_codec::{DecodeFault, Decoder};
use mos_edits::{Edit, edit_of_message};
use mos_fields::let_go;
use mos_values::{Envelope, Message};
use rundown_log::Entry;

/// The edit that the message of an envelope carries.
fn edit_inside(envelope: Envelope) -> Option<Edit>
    ensures { result ≡ edit_of envelope.message }
{
    edit_of_message(envelope.message)
}

/// The edit that the next whole message carries, and `None` inside for one that carries none; `None` where no message is
/// left.
fn next_edit(decoder: &mut Decoder) -> Option<Option<Edit>>
    ensures takes { (bytes : List ℕ) (found : List Found) → HasTaken decoder.old bytes found → Takes bytes found decoder.new result }
    ensures none { IfNone result ((decoder.new).ready ≡ []) }
    ensures fewer { IfSome result (λ _. length (decoder.new).ready < length (decoder.old).ready) }
{
    match decoder.next() {
        Some(envelope) => Some(edit_inside(envelope)),
        None => None,
    }
}

/// Puts the entry of an edit at the end.
fn push_entry(entries: &mut Vec<Entry>, edit: Edit) -> Result<(), JournalFault>
    ensures ok { OnOk result (entries.new.items ≡ entries.old.items ++ entry_of edit ∷ []) }
    ensures err { IfErr result (λ f. f ≡ JournalFault.NoMemory) }
{
    match entries.push(Entry::new(edit)) {
        Ok(()) => Ok(()),
        Err(full) => {
            let_go(full);
            Err(JournalFault::NoMemory)
        }
    }
}

/// Takes all messages that are whole, and puts their entries at the end. `Damaged` comes where one carries no edit.
fn take_entries(decoder: &mut Decoder, entries: &mut Vec<Entry>) -> Result<(), JournalFault>
    ensures read { (bytes : List ℕ) → Follows bytes decoder.old entries.old.items → OnOk result (Follows bytes decoder.new entries.new.items) }
    ensures emptied { OnOk result ((decoder.new).ready ≡ []) }
    ensures damaged { (bytes : List ℕ) → Follows bytes decoder.old entries.old.items → result ≡ Err JournalFault.Damaged → HasNoEntry bytes }
{
    'message: while let Some(carried) = next_edit(decoder) {
        match carried {
            Some(edit) => match push_entry(entries, edit) {
                Ok(()) => {}
                Err(fault) => return Err(fault),
            },
            None => return Err(JournalFault::Damaged),
        }
    }
    Ok(())
}

/// What a fault of the decoder is to a journal.
fn journal_fault(fault: DecodeFault) -> JournalFault
    ensures { result ≡ fault_of fault }
{
    match fault {
        DecodeFault::Refused { .. } => JournalFault::Damaged,
        DecodeFault::NoMemory => JournalFault::NoMemory,
    }
}

/// Feeds more bytes, and takes all messages that are whole with them.
pub fn feed_entries(
    decoder: &mut Decoder,
    entries: &mut Vec<Entry>,
    piece: &[u8],
) -> Result<(), JournalFault>
    requires taken { (decoder.old).ready ≡ [] }
    requires room { fed (decoder.old).bytes.stream + length piece.now < 2 ^ 64 }
    ensures read { (bytes : List ℕ) → Follows bytes decoder.old entries.old.items → OnOk result (Follows (bytes ++ piece.now) decoder.new entries.new.items) }
    ensures emptied { OnOk result ((decoder.new).ready ≡ []) }
    ensures damaged { (bytes : List ℕ) → Follows bytes decoder.old entries.old.items → result ≡ Err JournalFault.Damaged → IsDamaged (bytes ++ piece.now) }
{
    match decoder.feed(piece) {
        Ok(()) => take_entries(decoder, entries),
        Err(fault) => Err(journal_fault(fault)),
    }
}
