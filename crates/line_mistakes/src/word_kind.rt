//! What words behind a first word are.
ghost use Rattle.std.specs.Prelude.{◌≡◌, IfOk, is_some};
ghost use Rattle.script_edits.specs.Stories.{story_of};
ghost use Rattle.script_edits.specs.Words.{name_of, target_of};
ghost use Rattle.line_mistakes.specs.Forms.{is_kind};

use mos_fields::{NoMemory, let_go};
use script_edits::{edit, name};
use std::alloc::Global;

/// What a word behind a first word is.
#[derive(Clone, Copy, Debug, PartialEq, Eq)]
pub enum WordKind {
    /// a name
    Name,
    /// a name, or `-`
    Target,
    /// a name, perhaps with a colon and the names of items
    Story,
}

// Whether a word is a name.
fn is_name(alloc: Global, word: &[u8]) -> Result<bool, NoMemory>
    ensures { IfOk result (λ is. is ≡ is_some (name_of word.now)) }
{
    match name(alloc, word)? {
        None => Ok(false),
        Some(id) => {
            let_go(id);
            Ok(true)
        }
    }
}

// Whether a word is a target.
fn is_target(alloc: Global, word: &[u8]) -> Result<bool, NoMemory>
    ensures { IfOk result (λ is. is ≡ is_some (target_of word.now)) }
{
    if word == b"-".as_slice() {
        Ok(true)
    } else {
        is_name(alloc, word)
    }
}

// Whether an order can be created of a word: whether it is a story.
#[tactic(auto, using(crate::proofs::StoryLemmas::created_is_story))]
fn is_story(alloc: Global, word: &[u8]) -> Result<bool, NoMemory>
    ensures { IfOk result (λ is. is ≡ is_some (story_of word.now)) }
{
    let create: &[u8] = b"create";
    let order: &[u8] = b"R";
    match edit(alloc, &[create, order, word])? {
        None => Ok(false),
        Some(edit) => {
            let_go(edit);
            Ok(true)
        }
    }
}

impl WordKind {
    /// Whether a word is of this kind. The only error is that memory runs out.
    pub fn fits(self, alloc: Global, word: &[u8]) -> Result<bool, NoMemory>
        ensures { IfOk result (λ is. is ≡ is_kind self word.now) }
    {
        match self {
            WordKind::Name => is_name(alloc, word),
            WordKind::Target => is_target(alloc, word),
            WordKind::Story => is_story(alloc, word),
        }
    }
}
