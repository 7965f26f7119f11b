//! Scripts of world events: what a line says, and the scripts that `make` plays.
//!
//! A script is lines of words. `read_devices` reads its first line and `read_event` each further one; both take a line
//! without its line feed.
#![tactic(auto)]

mod events;
mod generator;
mod laws;
mod made_edits;
mod made_verb;
mod making;
mod verb;

pub use events::{read_devices, read_event};
pub use generator::Generator;
pub use laws::{commands_are_read_as_written, lines_are_read_as_written};

mod direction;
mod outcome;
mod pairing_event;
mod texts;
mod world_event;

pub use direction::Direction;
use mos_values::Sequence;
pub use outcome::Outcome;
pub use pairing_event::PairingEvent;
pub use world_event::WorldEvent;

/// Events, in order.
pub type WorldEvents = Sequence<WorldEvent>;
