//! Texts of fields by their forms, the attributes that the tables name, and the rest of raw elements.
//!
//! A text's form says which texts a field may have, and how each is written canonically. `mos_grammar` says what a start
//! tag's attributes show; the functions here read them.
#![tactic(auto)]

mod attributes;
mod chars;
mod given;
mod known;
pub mod laws;
mod numbers;
mod reading;
mod tail;
mod white;

pub use attributes::{read_attribute, read_operation};
pub use given::Given;
pub use reading::read_form;
pub use tail::{is_tail, join};
pub use white::is_white;
