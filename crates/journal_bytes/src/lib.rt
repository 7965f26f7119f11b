//! A journal as bytes: each entry is a message, in canonical encoding, in an envelope whose mosID and ncsID are `log` and
//! which has no messageID. One message stands behind the other.
//!
//! The envelope and that the entries stand so are this project's own.
#![tactic(auto)]

mod fault;
mod reader;
mod reading;
mod writing;

pub use fault::JournalFault;
pub use reader::JournalReader;
pub use writing::{entry_bytes, entry_envelope};
