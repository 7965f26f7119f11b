//! A source that gives bytes which were read of it once more, and then reads on: what a reader took to look at isn't lost.
#![tactic(auto)]

mod fronted;

pub use fronted::Fronted;
