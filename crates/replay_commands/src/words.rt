//! The words that a run is called with.
ghost use Rattle.std.specs.Prelude.{◌≡◌, [], ◌∷◌, IfSome, IfNone, map, string_bytes};
ghost use Rattle.replay_commands.specs.Words.{AreWords, AsksOnly, command_of, count_of as count_of_word};

use script_edits::number;

/// The command that the words ask for.
#[derive(Clone, Copy, Debug, PartialEq, Eq)]
pub enum Asked {
    /// `take`
    Take,
    /// `show`
    Show,
    /// `check`
    Check,
    /// `replay`
    Replay,
    /// `make` and a count of events
    Make(u32),
}

/// The most digits of a count.
const COUNT_DIGITS: usize = 6;

/// The most events that are made.
const COUNT_LIMIT: u32 = 200_000;

/// The command of one word.
fn one_word(word: &str) -> Option<Asked>
    ensures some { IfSome result (λ a. AsksOnly (command_of a) (word.now ∷ [])) }
    ensures none { IfNone result (AreWords (word.now ∷ []) → ⊥) }
{
    match word {
        "take" => Some(Asked::Take),
        "show" => Some(Asked::Show),
        "check" => Some(Asked::Check),
        "replay" => Some(Asked::Replay),
        _ => None,
    }
}

/// The count of events that a word is: 1 to 6 digits, at most 200,000.
fn count_of(word: &str) -> Option<u32>
    ensures { result ≡ count_of_word word.now }
{
    match number(word.as_bytes()) {
        Some(count) if word.len() <= COUNT_DIGITS && count <= COUNT_LIMIT => Some(count),
        _ => None,
    }
}

/// The command of two words.
fn two_words(word: &str, count: &str) -> Option<Asked>
    ensures some { IfSome result (λ a. AsksOnly (command_of a) (word.now ∷ count.now ∷ [])) }
    ensures none { IfNone result (AreWords (word.now ∷ count.now ∷ []) → ⊥) }
{
    if word != "make" {
        return None;
    }
    match count_of(count) {
        Some(count) => Some(Asked::Make(count)),
        None => None,
    }
}

/// The command that words ask for; `None` comes exactly where they ask for none.
pub fn asked_for(words: &[String]) -> Option<Asked>
    ensures some { IfSome result (λ a. AsksOnly (command_of a) (map string_bytes words.now)) }
    ensures none { IfNone result (AreWords (map string_bytes words.now) → ⊥) }
{
    match words {
        [word] => one_word(word.as_str()),
        [word, count] => two_words(word.as_str(), count.as_str()),
        _ => None,
    }
}
