//! Messages with their envelope, as bytes: the canonical encoding of MOS Protocol 2.8.5 in this project's profile.
#![tactic(auto)]

mod encoding;

pub use encoding::{encode, encode_with};
