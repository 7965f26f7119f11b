//! The two loops that serve a connection: bytes of the connection are the events of a hub, in order, and what the hub
//! answers is what is written.
#![tactic(auto)]

mod answering;
mod buffer;
mod driving;
mod end;
mod hearing;
mod inlet;
mod names;
mod numbering;
mod port;
mod refusing;
mod stage;
mod telling;
mod turns;
mod writing;

pub use answering::answer_port;
pub use driving::drive_port;
pub use end::End;
pub use inlet::{Inlet, Next, Rejection};
pub use port::Port;
pub use stage::{At, Stage};
