//! The program for editors, but for its `main`: its words, what it says of itself, and runs over a connection that a dialer opens,
//! of lines and of the messages of a file.
#![tactic(auto)]

mod giving;
mod place;
mod running;
mod server;
mod texts;

pub use giving::{check_words, run_file};
pub use place::place_in;
pub use running::run_editor;
pub use texts::{FORMS, USAGE, about, last_file_words, last_words, message_words, option_in};
