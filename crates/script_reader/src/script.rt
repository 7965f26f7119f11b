//! Scripts.

use mos_fields::let_go;
use world_scripts::{WorldEvent, WorldEvents};

/// A script: how many devices its world has, and its events.
#[derive(Drop)]
pub struct Script {
    /// The number of devices.
    pub devices: u32,
    /// The events, in order.
    pub events: WorldEvents,
}

/// Lets a script go. Who hands its script to this call drops none of its parts by itself, which would be proved once more.
pub fn close_script(script: Script) {
    let_go(script);
}

/// Lets the event of a line go, in the same way.
pub fn close_event(event: Option<WorldEvent>) {
    let_go(event);
}
