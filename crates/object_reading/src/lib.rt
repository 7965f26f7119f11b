//! The objects of a stream of mosObj messages.
//!
//! A gateway's objects come from such a file. What stands round an object, the names of both ends and the messageID, is
//! passed over. A message is let go as soon as its object is taken: reading holds one message and one piece of the input.
#![tactic(auto)]

mod fault;
mod messages;
mod reading;

pub use fault::ObjectsFault;
pub use reading::read_objects;
