//! A run of whole messages: each message of a stream is sent over a connection, and its answer is told behind the message's
//! name and its roID.
//!
//! `run_messages` sends one message at a time, as it stands in the stream and in its canonical encoding, and reads its answer
//! before it goes on. It holds one piece of the stream with the messages that are whole in it, and one answer.
#![tactic(auto)]

mod giving;
mod label;
mod message_end;
mod run;
mod turns;

pub use label::label_of;
pub use message_end::MessageEnd;
pub use run::run_messages;
