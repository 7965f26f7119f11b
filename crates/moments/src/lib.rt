//! Times in UTC and the seconds since the begin of 1970, and the time that the system tells.
#![tactic(auto)]

mod moment;
mod now;

pub use moment::{first_time, time_of};
pub use now::moment_now;
