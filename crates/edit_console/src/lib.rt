//! What a person at a terminal sees besides the answers: a prompt, the forms of a line, and what an answer `NOT FOR ME` means.
#![tactic(auto)]

mod hinted;
mod prompted;

pub use hinted::Hinted;
pub use prompted::Prompted;
