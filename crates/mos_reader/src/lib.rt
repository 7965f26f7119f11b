//! A stream of code units, to the events of its messages.
//!
//! What the reader answers is what the definition of reading code unit after code unit says, in whichever pieces the
//! units come.
#![tactic(auto)]

mod found;
mod outcome;
mod reader;
mod reading;
mod units;

pub use found::{Found, ReadFault};
pub use reader::Reader;
