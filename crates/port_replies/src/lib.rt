//! What is answered at the ports: `specs/Ports.antt` says which step of its machine each event is, and what is said to it; the
//! mosAck that answers a message.
#![tactic(auto)]

mod answers;

pub use answers::{object_answer, object_refusal, object_taken};
