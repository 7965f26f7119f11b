//! The messages between the server and the devices of a world, as bytes and back.
#![tactic(auto)]

mod decoding;
mod encoding;
mod names;

pub use decoding::decode_message;
pub use encoding::encode_message;
