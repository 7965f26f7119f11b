//! The names of stories, and the first that stands twice.
ghost use Rattle.std.specs.Prelude.{◌≡◌, IfOk, map, bytes_eq};
ghost use Rattle.std.specs.Option.{option_map};
ghost use Rattle.script_edits.specs.Words.{stands_in as stands_in_of, words_in};
ghost use Rattle.line_mistakes.specs.Mistakes.{first_word, story_name as story_name_of, twice_in as twice_in_of};

use mos_fields::NoMemory;
use script_edits::parts;
use std::alloc::Global;

// The first of these words, or an empty one.
fn first_of<'a>(words: &[&'a [u8]]) -> &'a [u8]
    ensures { result.now ≡ first_word (words_in words.now) }
{
    match words {
        [] => &[],
        [first, ..] => first,
    }
}

// The name of the story that a word is.
fn story_name<'a>(alloc: Global, word: &'a [u8]) -> Result<&'a [u8], NoMemory>
    ensures { IfOk result (λ name. name.now ≡ story_name_of word.now) }
{
    let parts = parts(alloc, word, b':')?;
    Ok(first_of(&parts))
}

/// The names of the stories that words are. The only error is that memory runs out.
pub(crate) fn story_names<'a>(alloc: Global, words: &[&'a [u8]]) -> Result<Vec<&'a [u8]>, NoMemory>
    ensures { IfOk result (λ names. words_in names.items ≡ map story_name_of (words_in words.now)) }
{
    let mut names = Vec::new(alloc);
    'words: for word in words {
        let name = story_name(alloc, word)?;
        names.push(name)?;
    }
    Ok(names)
}

// Whether a word is the first of two.
fn is_same(a: &[u8], b: &[u8]) -> bool
    ensures { result ≡ bytes_eq a.now b.now }
{
    a == b
}

// Whether a word is among these.
fn stands_in(word: &[u8], words: &[&[u8]]) -> bool
    ensures { result ≡ stands_in_of word.now (words_in words.now) }
{
    let mut rest = words;
    'next: while let [w, more @ ..] = rest {
        if is_same(word, w) {
            return true;
        }
        rest = more;
    }
    false
}

/// The first name that stands again behind it, if one does.
pub(crate) fn twice_in<'a>(names: &[&'a [u8]]) -> Option<&'a [u8]>
    ensures { option_map (λ name. name.now) result ≡ twice_in_of (words_in names.now) }
{
    let mut rest = names;
    'next: while let [name, more @ ..] = rest {
        if stands_in(name, more) {
            return Some(name);
        }
        rest = more;
    }
    None
}
