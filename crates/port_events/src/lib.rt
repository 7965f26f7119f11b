//! What comes to the server and to a gateway at their ports, and what is answered there.
//!
//! Both machines have one type of events and one of answers, so that programs reach either by the same code.
//! Which step of its machine each event is, is said where the machines stand behind ports (`port_replies`).
#![tactic(auto)]

mod answer;
mod event;
mod sound_message;

pub use answer::PortAnswer;
pub use event::{PortEvent, Side, What};
pub use sound_message::SoundMessage;
