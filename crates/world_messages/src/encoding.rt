//! From messages to bytes.
ghost use Rattle.std.specs.Prelude.{◌≡◌, ◌≤◌, length, IfOk};
ghost use Rattle.mos_codec.specs.Codec.{encoding};
ghost use Rattle.world_messages.specs.Messages.{EncodesIfSound, IsEncodingOf, IsShortName, mos_name, ncs_name, world_envelope};

use crate::names::{device_name, server_name};
use encoding_laws::laws::{allowed_texts_are_encoded, values_are_encoded, values_are_messages};
use mos_fields::{Id, NoMemory, let_go};
use mos_messages::encode;
use mos_values::{Envelope, Message};
use std::alloc::Global;
use value_facts::envelopes::envelope_fits;
use value_laws::ranges::message_is_in_range;

/// The names of both ends.
fn names(alloc: Global, d: u32) -> Result<(Id, Id), NoMemory>
    ensures mos { IfOk result (λ r. r.0 ≡ mos_name d) }
    ensures ncs { IfOk result (λ r. r.1 ≡ ncs_name) }
{
    let mos = device_name(alloc, d)?;
    let ncs = server_name(alloc)?;
    Ok((mos, ncs))
}

/// A message in its envelope.
fn envelope_of(alloc: Global, d: u32, message: Message) -> Result<Envelope, NoMemory>
    ensures { IfOk result (λ e. e ≡ world_envelope d message) }
{
    match names(alloc, d) {
        Ok((mos, ncs)) => Ok(Envelope {
            mos,
            ncs,
            message_id: None,
            message,
        }),
        Err(_) => {
            let_go(message);
            Err(NoMemory)
        }
    }
}

/// The canonical encoding of an envelope encodes it, where the message is sound and it isn't too long.
fn is_encoded_if_sound(e: &Envelope, bytes: &[u8])
    requires { bytes.now ≡ encoding e.now }
    ensures { EncodesIfSound bytes.now e.now }
{
    envelope_fits(e);
    message_is_in_range(&e.message);
    values_are_messages();
    allowed_texts_are_encoded();
    values_are_encoded();
}

/// The mosID of an envelope is short, as each ID.
fn has_short_name(e: &Envelope)
    ensures { IsShortName e.now.mos }
{
    let _text = e.mos.text();
}

/// The canonical encoding of an envelope.
fn encode_envelope(alloc: Global, e: &Envelope) -> Result<Vec<u8>, NoMemory>
    ensures canonical { IfOk result (λ bytes. bytes.items ≡ encoding e.now) }
    ensures encodes { IfOk result (λ bytes. EncodesIfSound bytes.items e.now) }
    ensures named { IsShortName e.now.mos }
{
    has_short_name(e);
    let bytes = encode(alloc, e)?;
    is_encoded_if_sound(e, bytes.as_slice());
    Ok(bytes)
}

/// The bytes of a message between the server and device `d`: its canonical encoding in the envelope of a world. The only
/// error is that memory runs out.
pub fn encode_message(alloc: Global, d: u32, message: Message) -> Result<Vec<u8>, NoMemory>
    ensures { IfOk result (λ bytes. IsEncodingOf bytes.items d message) }
{
    let envelope = envelope_of(alloc, d, message)?;
    let bytes = encode_envelope(alloc, &envelope);
    let_go(envelope);
    bytes
}
