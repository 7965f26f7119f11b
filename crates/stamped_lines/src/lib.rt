//! Lines on standard error, with the time in front.
//!
//! ```text
//! 2026-12-01T05:02:11Z connection 3 upper from 127.0.0.1:40122
//! <4>2026-12-01T05:02:12Z connection 3 upper m1 ended: ReadFault
//! ```
#![tactic(auto)]

mod saying;
mod stamps;

pub use saying::say;
pub use stamps::stamped;
