//! From entries to bytes.
ghost use Rattle.std.specs.Prelude.{◌≡◌, IfOk, codes};
ghost use Rattle.journal_bytes.specs.Journals.{entry_bytes as bytes_of_entry, log_envelope};

use mos_edits::{Edit, edit_message};
use mos_fields::{Id, NoMemory, let_go};
use mos_messages::encode;
use mos_values::Envelope;
use rundown_log::Entry;
use std::alloc::Global;

/// The name of both ends in the envelope of an entry.
fn log_name(alloc: Global) -> Result<Id, NoMemory>
    ensures { IfOk result (λ x. x ≡ codes "log") }
{
    match Id::try_new(alloc, &['l', 'o', 'g']) {
        Ok(name) => Ok(name),
        Err(_) => Err(NoMemory),
    }
}

/// Both names in the envelope of an entry.
fn log_names(alloc: Global) -> Result<(Id, Id), NoMemory>
    ensures mos { IfOk result (λ r. r.0 ≡ codes "log") }
    ensures ncs { IfOk result (λ r. r.1 ≡ codes "log") }
{
    let mos = log_name(alloc)?;
    let ncs = log_name(alloc)?;
    Ok((mos, ncs))
}

/// An edit in the envelope of an entry: both names are `log`, and there is no messageID. The only error is that memory runs
/// out.
pub fn entry_envelope(alloc: Global, edit: &Edit) -> Result<Envelope, NoMemory>
    ensures { IfOk result (λ e. e ≡ log_envelope edit.now) }
{
    let (mos, ncs) = log_names(alloc)?;
    let message = edit_message(edit)?;
    Ok(Envelope {
        mos,
        ncs,
        message_id: None,
        message,
    })
}

/// The bytes of an entry: the canonical encoding of its edit in the envelope of an entry. The only error is that memory
/// runs out.
pub fn entry_bytes(alloc: Global, e: &Entry) -> Result<Vec<u8>, NoMemory>
    ensures { IfOk result (λ bytes. bytes.items ≡ bytes_of_entry e.now) }
{
    let envelope = entry_envelope(alloc, e.edit())?;
    let bytes = encode(alloc, &envelope);
    let_go(envelope);
    bytes
}
