//! Messages of Profiles 2 and 4 from their events.
#![tactic(auto)]

mod headers;
mod releases;
mod sends;

pub use headers::{order_of, patch_of};
pub use releases::release_of;
pub use sends::send_of;

mod stats;

pub use stats::stat_of;

mod acks;
mod groups;
mod laws;

pub use acks::ack_of;
pub use laws::accepted_ack;
