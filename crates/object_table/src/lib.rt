//! The last object of each objID.
//!
//! A table takes object after object, as mosObj and mosListAll bring them, and keeps the last of each objID in the order in
//! which the objIDs came first. An object is found by its objID without a walk over the table.
#![tactic(auto)]

mod fault;
mod laws;
mod table;

pub use fault::TableFault;
pub use laws::one_object_more_is_taken;
pub use table::ObjectTable;
