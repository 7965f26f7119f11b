//! What the server's and the device's machine answer: to a message that came, to a call for the next message to send, and
//! to an answer that came; and the texts of the roAcks.
#![tactic(auto)]

mod answers;
mod status;

pub use answers::{Heard, Sent, Step, Tag};
pub use status::{Status, acknowledgement};
