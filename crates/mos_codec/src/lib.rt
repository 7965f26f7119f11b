//! Messages with their envelopes as bytes, and back: what is encoded is decoded as the same envelope.
//!
//! Two bytes are a code unit, the high one first.
#![tactic(auto)]

mod blank;
mod decoder;
mod decoding;
mod encoding;
mod fault;
mod whole;

pub use decoder::Decoder;
pub use decoding::decoded;
pub use encoding::{EncodeFault, encoded};
pub use fault::DecodeFault;
pub use whole::Placed;
