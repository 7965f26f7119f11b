//! Worlds of one server and its gateways that the shipped machines play, and the stages that scripts are played on.
//!
//! `World` takes an `Ncs` over a keeper in memory, a `Gate` for each device, and the connections between them, on which
//! messages go as bytes, and steps as the definition of the world says. So each of its runs is safe: what a gateway holds of
//! an order is at each moment the server's order after a prefix of its accepted edits.
#![tactic(auto)]

mod commanding;
mod device_events;
mod limits;
mod play;
mod saying;
mod server_events;
mod stage;
mod world;

pub use stage::{Stage, WorldStage, close_stage};
pub use world::World;
