//! Texts as lines have them: as they are, or without control characters; numbers; the line of a rejection.
#![tactic(auto)]

mod rejections;
mod texts;

pub use rejections::refused_line;
pub use texts::{chars_of, push_chars, push_number, push_text, push_word};
