//! Words of a line, and names.
ghost use Rattle.std.specs.Prelude.{◌≡◌, ◌==◌, IfOk, bytes_eq, map};
ghost use Rattle.std.specs.List.{list_all, slice_split};
ghost use Rattle.mos_fields.specs.Fields.{same};
ghost use Rattle.script_edits.specs.Words.{are_distinct as are_distinct_of, are_names as are_names_of, is_name as is_name_of, is_name_char as is_name_char_of, stands_in as stands_in_of, words_in};

use mos_fields::NoMemory;
use std::alloc::{AllocError, Global};

/// What stands between the bytes of this value.
fn pieces(alloc: Global, bytes: &[u8], between: u8) -> Result<Vec<&[u8]>, AllocError>
    ensures { IfOk result (λ v. words_in v.items ≡ slice_split (λ b. b == between) bytes.now) }
{
    bytes.split(|b| *b == between).collect(alloc)
}

/// The parts of bytes that stand between the bytes of this value; there is one at least. The only error is that memory
/// runs out.
pub fn parts(alloc: Global, bytes: &[u8], between: u8) -> Result<Vec<&[u8]>, NoMemory>
    ensures { IfOk result (λ v. words_in v.items ≡ slice_split (λ b. b == between) bytes.now) }
{
    let parts = pieces(alloc, bytes, between)?;
    Ok(parts)
}

/// Whether one word is the other.
pub fn is_word(word: &[u8], other: &[u8]) -> bool
    ensures { result ≡ same word.now other.now }
{
    match word {
        [] => other.is_empty(),
        [b, more @ ..] => match other {
            [] => false,
            [c, rest @ ..] => *b == *c && is_word(more, rest),
        },
    }
}

/// Whether a name may have this byte.
fn is_name_char(c: u8) -> bool
    ensures { result ≡ is_name_char_of c }
{
    c >= b'A' && c <= b'Z' || c >= b'a' && c <= b'z' || c >= b'0' && c <= b'9' || c == b'_'
}

/// Whether a name may have each of these bytes.
fn are_name_chars(word: &[u8]) -> bool
    ensures { result ≡ list_all is_name_char_of word.now }
{
    match word {
        [] => true,
        [c, more @ ..] => is_name_char(*c) && are_name_chars(more),
    }
}

/// Whether a word is a name: 1 to 32 of `A-Z`, `a-z`, `0-9` and `_`.
#[tactic(auto, unfolding(crate::specs::Words::is_name))]
pub fn is_name(word: &[u8]) -> bool
    ensures { result ≡ is_name_of word.now }
{
    word.len() >= 1 && word.len() <= 32 && are_name_chars(word)
}

/// Whether each word is a name.
pub fn are_names(words: &[&[u8]]) -> bool
    ensures { result ≡ are_names_of (words_in words.now) }
{
    let mut rest = words;
    while let [w, more @ ..] = rest {
        if !is_name(w) {
            return false;
        }
        rest = more;
    }
    true
}

/// Whether a word is the first of two.
fn is_same(a: &[u8], b: &[u8]) -> bool
    ensures { result ≡ bytes_eq a.now b.now }
{
    a == b
}

/// Whether a word is among these.
fn stands_in(word: &[u8], words: &[&[u8]]) -> bool
    ensures { result ≡ stands_in_of word.now (words_in words.now) }
{
    let mut rest = words;
    while let [w, more @ ..] = rest {
        if is_same(word, w) {
            return true;
        }
        rest = more;
    }
    false
}

/// Whether no word stands twice.
pub fn are_distinct(words: &[&[u8]]) -> bool
    ensures { result ≡ are_distinct_of (words_in words.now) }
{
    let mut rest = words;
    while let [w, more @ ..] = rest {
        if stands_in(w, more) {
            return false;
        }
        rest = more;
    }
    true
}
