//! What is wrong with a line that is no edit, and the text that says so.
//!
//! `line_mistake` gives the first mistake of a line, and `push_mistake` its text: which words the line's first word wants
//! behind it, or which word is no name, no story or no first word.
#![tactic(auto)]

mod line_verb;
mod mistake;
mod names;
mod texts;
mod walk;
mod word_kind;

pub use line_verb::LineVerb;
pub use mistake::{Mistake, line_mistake};
pub use texts::{push_line_mistake, push_mistake};
pub use word_kind::WordKind;
