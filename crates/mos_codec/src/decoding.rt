//! From the bytes of one message to its envelope.
ghost use Rattle.std.specs.Prelude.{◌≡◌, IfOk, OnOk};
ghost use Rattle.mos_values.specs.Sound.{IsSound};
ghost use Rattle.mos_values.specs.declared.message.Envelope.{Envelope as Enveloped};
ghost use Rattle.mos_codec.specs.Codec.{IsEncodedBy};
ghost use Rattle.mos_codec.specs.Decoding.{IsFirst, start_decoder};

use crate::decoder::Decoder;
use crate::fault::DecodeFault;
use mos_fields::NoMemory;
use mos_values::Envelope;
use std::alloc::Global;

/// Feeds the bytes of a message to a decoder to which nothing was fed; a rejection of what stands behind it doesn't matter.
fn feed_first(decoder: &mut Decoder, bytes: &[u8]) -> Result<(), NoMemory>
    requires { decoder.old ≡ start_decoder }
    ensures { (e : Enveloped) → IsEncodedBy bytes.now e → OnOk result (IsFirst e (decoder.new).ready) }
{
    match decoder.feed(bytes) {
        Ok(()) => Ok(()),
        Err(DecodeFault::Refused { .. }) => Ok(()),
        Err(DecodeFault::NoMemory) => Err(NoMemory),
    }
}

/// The envelope that the bytes encode: the one that was encoded, or any other writer's, with nothing behind it. Its message
/// is sound.
///
/// The only error is that memory runs out.
pub fn decoded(alloc: Global, bytes: &[u8]) -> Result<Envelope, NoMemory>
    requires { (e : Enveloped) × IsEncodedBy bytes.now e }
    ensures same { (e : Enveloped) → IsEncodedBy bytes.now e → IfOk result (λ d. d ≡ e) }
    ensures sound { IfOk result (λ d. IsSound d.message) }
{
    let mut decoder = Decoder::new(alloc);
    feed_first(&mut decoder, bytes)?;
    match decoder.next() {
        Some(envelope) => Ok(envelope),
        None => unreachable!(),
    }
}
