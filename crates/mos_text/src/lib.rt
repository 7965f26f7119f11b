//! Characters of bytes and bytes of characters: UTF-16 with the high byte first, and references.
#![tactic(auto)]

pub mod fault;
pub mod laws;
pub mod push;
pub mod reader;
pub mod reading;
mod steps;
pub mod units;

pub use fault::{NoMemory, TextFault};
pub use push::push_text;
pub use reader::UnitReader;
pub use reading::Reading;
pub use units::units_of;
