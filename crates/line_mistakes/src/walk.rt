//! A walk over the words behind a first word.
ghost use Rattle.std.specs.Prelude.{◌≡◌, Bool, IfOk, Some};
ghost use Rattle.std.specs.Option.{option_map};
ghost use Rattle.script_edits.specs.Words.{words_in};
ghost use Rattle.line_mistakes.specs.Forms.{verb_kinds, verb_more};
ghost use Rattle.line_mistakes.specs.Mistakes.{has_empty as has_empty_of, no_kind as no_kind_of, each_mistake, rest_mistake, seen, words_mistake};

use crate::line_verb::LineVerb;
use crate::mistake::Mistake;
use crate::word_kind::WordKind;
use mos_fields::NoMemory;
use std::alloc::Global;

/// Whether one of these words is empty.
pub(crate) fn has_empty(words: &[&[u8]]) -> bool
    ensures { result ≡ has_empty_of (words_in words.now) }
{
    let mut rest = words;
    'next: while let [word, more @ ..] = rest {
        if word.is_empty() {
            return true;
        }
        rest = more;
    }
    false
}

// A word isn't of the kind that it has to be.
fn no_kind<'a>(kind: WordKind, word: &'a [u8]) -> Mistake<'a>
    ensures { seen result ≡ no_kind_of kind word.now }
{
    match kind {
        WordKind::Story => Mistake::NoStory(word),
        _ => Mistake::NoName(word),
    }
}

// The first of these words that isn't of this kind.
fn each<'a>(
    alloc: Global,
    kind: WordKind,
    words: &[&'a [u8]],
) -> Result<Option<Mistake<'a>>, NoMemory>
    ensures { IfOk result (λ mistake. option_map seen mistake ≡ each_mistake kind (words_in words.now)) }
{
    let mut rest = words;
    'next: while let [word, more @ ..] = rest {
        if !kind.fits(alloc, word)? {
            return Ok(Some(no_kind(kind, word)));
        }
        rest = more;
    }
    Ok(None)
}

// The first mistake of the words that may follow: none may, or each has to be of this kind.
fn rest<'a>(
    alloc: Global,
    verb: LineVerb,
    more: Option<WordKind>,
    words: &[&'a [u8]],
) -> Result<Option<Mistake<'a>>, NoMemory>
    ensures { IfOk result (λ mistake. option_map seen mistake ≡ rest_mistake verb more (words_in words.now)) }
{
    match more {
        Some(kind) => each(alloc, kind, words),
        None => match words {
            [] => Ok(None),
            _ => Ok(Some(Mistake::Wants(verb))),
        },
    }
}

// The first mistake of words, of which the first have to be of these kinds.
fn walk<'a>(
    alloc: Global,
    verb: LineVerb,
    kinds: &[WordKind],
    more: Option<WordKind>,
    words: &[&'a [u8]],
) -> Result<Option<Mistake<'a>>, NoMemory>
    ensures { IfOk result (λ mistake. option_map seen mistake ≡ words_mistake verb kinds.now more (words_in words.now)) }
{
    match kinds {
        [] => rest(alloc, verb, more, words),
        [kind, others @ ..] => match words {
            [] => Ok(Some(Mistake::Wants(verb))),
            [word, behind @ ..] => {
                if kind.fits(alloc, word)? {
                    walk(alloc, verb, others, more, behind)
                } else {
                    Ok(Some(no_kind(*kind, word)))
                }
            }
        },
    }
}

/// The first mistake of the words behind a first word, each for itself. The only error is that memory runs out.
pub(crate) fn words_wrong<'a>(
    alloc: Global,
    verb: LineVerb,
    words: &[&'a [u8]],
) -> Result<Option<Mistake<'a>>, NoMemory>
    ensures { IfOk result (λ mistake. option_map seen mistake ≡ words_mistake verb (verb_kinds verb) (verb_more verb) (words_in words.now)) }
{
    walk(alloc, verb, verb.kinds(), verb.more(), words)
}
