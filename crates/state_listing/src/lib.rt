//! The state lines of a listing: what is said of a world's server and of its devices behind the lines of the events.
//!
//! `push_orders` appends what the server has of the orders, and `push_device` what the server has of one device, and what
//! that device has. The lines of a whole world are those of the orders, and those of its devices one after the other.
#![tactic(auto)]

mod device;
mod listing;
mod orders;
mod server;
mod texts;

pub use listing::{push_device, push_orders};
