//! The last report of each element of each device.
//!
//! A board takes report after report, as roElementStat brings them, and keeps the last one of each element: by the number of
//! the device, the roID, what it is of, the storyID and the itemID. They stand in the order of the elements' first reports.
//! What one device reported on one order is listed without a walk over the others.
#![tactic(auto)]

mod board;
mod elements;
mod fault;
mod links;
mod numbers;
mod rows;
mod sizes;

pub use board::Board;
pub use fault::BoardFault;
