//! Times of the form `YYYY-MM-DDThh:mm:ssZ`, read from a text as it stands.
//!
//! `mos_fields` reads times in each of their forms. Here the one form is read from the code units of a text as they
//! stand, with no memory.
#![tactic(auto)]

mod digits;
mod form;
mod plain;

pub use plain::plain_time;
