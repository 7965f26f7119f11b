//! Words of a script's lines, and the edits that they are.
//!
//! A line is words with one space between any two. A name has 1 to 32 of `A-Z`, `a-z`, `0-9` and `_`, and is an ID. A
//! number has 1 to 9 digits. A story word is a name, perhaps with `:` and item names with commas between them.
#![tactic(auto)]

mod edit_verb;
mod edits;
mod item_actions;
mod names;
mod numbers;
mod scripts;
mod stories;
mod story_actions;
mod words;

pub use edits::{edit, order_with};
pub use names::{id_named, name, opt_id_named};
pub use numbers::number;
pub use stories::story_named;
pub use words::{is_word, parts};
