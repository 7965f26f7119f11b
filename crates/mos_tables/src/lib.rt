//! The records of MOS Protocol 2.8.5 in this project's profile, as tables of data, and the value of a record as a list
//! of events with its canonical encoding.
//!
//! `specs/Tables.antt` has the tables as the contracts cite them; the functions here give the same tables to code.
//! `specs/Events.antt` and `specs/Canonical.antt` say what a record's value is and how it is written.
#![tactic(auto)]

mod aim;
mod column;
mod others;
mod records;
mod table;

pub use aim::Aim;
pub use column::{Column, Often, Shape};
pub use others::Others;
pub use table::Table;
