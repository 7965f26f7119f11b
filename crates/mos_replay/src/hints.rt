//! What may be wrong with a command.
use input_looks::{has_return, look_of};

/// Whether this is a word that reads standard input.
pub fn is_reader(word: &str) -> bool {
    matches!(word, "take" | "show" | "check" | "replay")
}

/// Whether this is a word of a command.
pub fn is_word(word: &str) -> bool {
    is_reader(word) || word == "make"
}

/// What is wrong with a command that begins with this word, and is none.
pub fn words_hint(word: &str) -> &'static str {
    if is_reader(word) {
        "reads standard input"
    } else if word == "make" {
        "wants one number, from 0 to 200000"
    } else {
        "is no word of this program; --help lists them"
    }
}

/// What an input may be that was rejected, by the command and the first bytes of it.
pub fn input_hint(words: &[String], first: &[u8]) -> Option<&'static str> {
    let [word, ..] = words else {
        return None;
    };
    if word.as_str() == "replay" {
        return if has_return(first) {
            Some(
                "line 1 ends with a carriage return; a line of a script ends with a line feed alone",
            )
        } else {
            None
        };
    }
    match look_of(first) {
        Some(look) => Some(look.hint()),
        None => None,
    }
}
