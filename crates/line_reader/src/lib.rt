//! Lines of a source that comes in pieces. Of each line so many bytes are held at most, however long it is.
#![tactic(auto)]

mod reader;
mod steps;

pub use reader::{LineFault, LineReader, Step};
