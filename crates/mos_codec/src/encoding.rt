//! From envelopes to bytes.
ghost use Rattle.std.specs.Prelude.{◌≡◌, ◌≤◌, ◌<◌, ◌*◌, Err, IfOk, length};
ghost use Rattle.mos_lexer.specs.Units.{message_limit};
ghost use Rattle.mos_values.specs.Sound.{IsSound};
ghost use Rattle.mos_codec.specs.Codec.{IsEncodedBy, encoding, encoding_units};

use mos_messages::encode;
use mos_values::Envelope;
use std::alloc::Global;
use value_facts::encodings::is_encoded;
use value_laws::ranges::message_is_in_range;

/// The most bytes of a message: 8,388,608 code units.
const MOST_BYTES: usize = 16_777_216;

/// Why an envelope has no encoding.
#[derive(Clone, Copy, Debug, Drop, PartialEq, Eq)]
pub enum EncodeFault {
    /// it would have more than 8,388,608 code units
    TooLong,
    /// there was no memory for it
    NoMemory,
}

/// The canonical encoding of an envelope encodes it.
fn is_encoded_by(e: &Envelope, bytes: &[u8])
    requires sound { IsSound e.now.message }
    requires canonical { bytes.now ≡ encoding e.now }
    requires short { length (encoding_units e.now) ≤ message_limit }
    ensures { IsEncodedBy bytes.now e.now }
{
    is_encoded(e);
    message_is_in_range(&e.message);
}

/// The canonical encoding of an envelope, in UCS-2, high byte first. Its message has to be sound.
///
/// # Errors
/// `TooLong` exactly where the encoding has more than 8,388,608 code units, and there is memory for it; `NoMemory` where
/// memory runs out.
pub fn encoded(alloc: Global, e: &Envelope) -> Result<Vec<u8>, EncodeFault>
    requires { IsSound e.now.message }
    ensures canonical { IfOk result (λ bytes. bytes.items ≡ encoding e.now) }
    ensures encodes { IfOk result (λ bytes. IsEncodedBy bytes.items e.now) }
    ensures too_long { result ≡ Err EncodeFault.TooLong → message_limit < length (encoding_units e.now) }
{
    match encode(alloc, e) {
        Ok(bytes) => {
            if bytes.len() > MOST_BYTES {
                Err(EncodeFault::TooLong)
            } else {
                is_encoded_by(e, bytes.as_slice());
                Ok(bytes)
            }
        }
        Err(_) => Err(EncodeFault::NoMemory),
    }
}
