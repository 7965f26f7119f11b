//! Writing a record.
ghost use Rattle.std.specs.Prelude.{◌≡◌, IfOk};
ghost use Rattle.mos_edits.specs.Carried.{edit_message};
ghost use Rattle.mos_values.specs.Sound.{IsSound};
ghost use Rattle.journal_records.specs.Records.{IsWritable, length_bytes, staged};

use entry_spellings::spelled_bytes;
use mos_fields::NoMemory;
use rundown_log::Entry;
use std::alloc::Global;

/// The eight bytes of a length.
#[tactic(auto, unfolding(crate::specs::Records::length_bytes))]
fn length_field(length: usize) -> [u8; 8]
    ensures { result ≡ length_bytes length }
{
    (length as u64).to_be_bytes()
}

/// What an append writes: the length, the message and a byte 0. The entry's edit has to be sound.
///
/// The only error is that memory runs out. An entry whose message has more than 16,777,216 bytes, which no reader takes, is
/// refused as if it did.
pub fn staged_bytes(alloc: Global, e: &Entry) -> Result<Vec<u8>, NoMemory>
    requires { IsSound (edit_message e.now.edit) }
    ensures bytes { IfOk result (λ v. v.items ≡ staged e.now) }
    ensures writable { IfOk result (λ v. IsWritable e.now) }
{
    let Ok(message) = spelled_bytes(alloc, e) else {
        return Err(NoMemory);
    };
    let mut bytes = length_field(message.len()).to_vec(alloc)?;
    bytes.extend_from_slice(&message)?;
    bytes.push(0)?;
    Ok(bytes)
}
