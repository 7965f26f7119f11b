//! Laws of canonical encodings: what is written of a message's value is read as that value. Each function does nothing,
//! and its clause is the law.
#![tactic(auto)]

pub mod elements;
pub mod laws;
pub mod numbers;
pub mod texts;
pub mod times;
pub mod words;
