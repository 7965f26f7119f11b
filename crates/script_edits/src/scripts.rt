//! Scripts that words are.
ghost use Rattle.std.specs.Prelude.{◌≡◌, [], IfOk};
ghost use Rattle.std.specs.Option.{option_map};
ghost use Rattle.script_edits.specs.Edits.{edit_form, two_names as two_names_of};
ghost use Rattle.script_edits.specs.Stories.{named_body as named_body_of, script_named};
ghost use Rattle.script_edits.specs.Words.{name_of, words_in};
ghost use Rattle.script_edits.specs.declared.edit_verb.EditVerb.TheVariants.{Script};

use crate::names::{both, name, push_chars};
use crate::words::is_name;
use mos_edits::Edit;
use mos_fields::{Id, NoMemory, Unread};
use mos_values::{Boxed, StorySend, Unreads};
use std::alloc::Global;

/// The storyBody that has a word for its text.
fn named_body(alloc: Global, word: &[u8]) -> Result<Unread, NoMemory>
    ensures { IfOk result (λ b. b ≡ named_body_of word.now) }
{
    let mut chars = Vec::new(alloc);
    push_chars(b"<storyBody>", &mut chars)?;
    push_chars(word, &mut chars)?;
    push_chars(b"</storyBody>", &mut chars)?;
    match Unread::try_new(alloc, &chars) {
        Ok(body) => Ok(body),
        Err(_) => Err(NoMemory),
    }
}

/// The same, if the word is a name.
fn body(alloc: Global, word: &[u8]) -> Result<Option<Unread>, NoMemory>
    ensures { IfOk result (λ o. o ≡ option_map named_body_of (name_of word.now)) }
{
    if is_name(word) {
        let body = named_body(alloc, word)?;
        Ok(Some(body))
    } else {
        Ok(None)
    }
}

/// A story, and the storyBody that has a name for its text.
fn story_and_body(alloc: Global, words: &[&[u8]]) -> Result<Option<(Id, Unread)>, NoMemory>
    ensures { IfOk result (λ o. o ≡ option_map (λ p. (p.0, named_body_of p.1)) (two_names_of (words_in words.now))) }
{
    match words {
        [a, text] => {
            let story = name(alloc, a)?;
            let body = body(alloc, text)?;
            Ok(both(story, body))
        }
        _ => Ok(None),
    }
}

/// The script of a story with this storyBody.
fn script_with(alloc: Global, ro: Id, story: Id, body: Unread) -> StorySend
    ensures { result ≡ record (script_named ro story []) { body = body } }
{
    StorySend {
        ro,
        story,
        slug: None,
        num: None,
        body,
        metadata: Unreads::new(alloc),
        others: Unreads::new(alloc),
    }
}

/// `script`: a story, and the name that is its text.
pub fn script(alloc: Global, ro: Id, words: &[&[u8]]) -> Result<Option<Edit>, NoMemory>
    ensures { IfOk result (λ o. o ≡ edit_form Script ro (words_in words.now)) }
{
    match story_and_body(alloc, words)? {
        None => Ok(None),
        Some((story, body)) => {
            let script = script_with(alloc, ro, story, body);
            Ok(Some(Edit::Script(Boxed::new(alloc, script)?)))
        }
    }
}
