//! Loops side by side: two or three, moved into threads and back, of a value that is lent.
#![tactic(auto)]

mod lanes;
mod side_by_side;
mod taken_out;

pub use lanes::run_lanes;
pub use side_by_side::{Lane, run_three, run_two};
pub use taken_out::{Parts, run_in_place, run_parts};
