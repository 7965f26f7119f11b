//! Items and stories that words are.
ghost use Rattle.std.specs.Prelude.{◌≡◌, ◌++◌, Bool, true, if◌then◌else◌, IfOk, IfSome, Some, None, bytes_eq, map};
ghost use Rattle.std.specs.Option.{option_map};
ghost use Rattle.mos_values.specs.Distinct.{AreDistinct, story_ids};
ghost use Rattle.script_edits.specs.Edits.{some_items as some_items_of, some_stories as some_stories_of};
ghost use Rattle.script_edits.specs.Stories.{if_distinct, item_named as item_named_of, item_names, stories_of, story_named as story_named_of, story_of, story_parts, story_with as story_with_of};
ghost use Rattle.script_edits.specs.Words.{are_distinct as are_distinct_of, stands_in as stands_in_of, words_in};

use crate::names::{id_named, opt_id_named};
use crate::words::{are_distinct, are_names, is_name, parts};
use mos_fields::{Id, NoMemory, OptId};
use mos_values::{Item, Items, Stories, Story, Unreads};
use std::alloc::Global;

/// The item of these IDs alone.
fn item_with(alloc: Global, id: Id, obj: OptId, mos: OptId) -> Item
    ensures { result ≡ record (item_named_of id) { obj = obj; mos = mos } }
{
    Item {
        id,
        slug: None,
        obj,
        mos,
        mos_abstract: None,
        obj_paths: None,
        channel: None,
        ed_start: None,
        ed_dur: None,
        user_timing_dur: None,
        trigger: None,
        macro_in: None,
        macro_out: None,
        metadata: Unreads::new(alloc),
        others: Unreads::new(alloc),
    }
}

/// The item of a name.
fn item_named(alloc: Global, word: &[u8]) -> Result<Item, NoMemory>
    ensures { IfOk result (λ i. i ≡ item_named_of word.now) }
{
    let id = id_named(alloc, word)?;
    let obj = opt_id_named(alloc, word)?;
    let mos = opt_id_named(alloc, b"m1")?;
    Ok(item_with(alloc, id, obj, mos))
}

/// The items of names.
fn items_named(alloc: Global, words: &[&[u8]]) -> Result<Items, NoMemory>
    ensures { IfOk result (λ items. items ≡ map item_named_of (words_in words.now)) }
{
    let mut items = Items::new(alloc);
    for word in words {
        items.push(item_named(alloc, word)?)?;
    }
    Ok(items)
}

/// The items that words are, if each is a name and there is one.
pub fn some_items(alloc: Global, words: &[&[u8]]) -> Result<Option<Items>, NoMemory>
    ensures { IfOk result (λ o. o ≡ some_items_of (words_in words.now)) }
{
    if words.is_empty() || !are_names(words) {
        Ok(None)
    } else {
        let items = items_named(alloc, words)?;
        Ok(Some(items))
    }
}

/// The story of a name, with items of distinct names.
pub fn story_named(alloc: Global, word: &[u8], items: &[&[u8]]) -> Result<Story, NoMemory>
    requires { are_distinct_of (words_in items.now) ≡ true }
    ensures { IfOk result (λ s. s ≡ story_named_of word.now (map item_named_of (words_in items.now))) }
{
    let id = id_named(alloc, word)?;
    let items = items_named(alloc, items)?;
    Ok(Story {
        id,
        slug: None,
        num: None,
        metadata: Unreads::new(alloc),
        others: Unreads::new(alloc),
        items,
    })
}

/// The story of a name and of item names.
fn story_with(alloc: Global, word: &[u8], items: &[&[u8]]) -> Result<Option<Story>, NoMemory>
    ensures { IfOk result (λ o. o ≡ story_with_of word.now (words_in items.now)) }
{
    if is_name(word) && are_names(items) && are_distinct(items) {
        let story = story_named(alloc, word, items)?;
        Ok(Some(story))
    } else {
        Ok(None)
    }
}

/// The story of a name and of what stands behind its colon.
fn story_with_list(alloc: Global, word: &[u8], items: &[u8]) -> Result<Option<Story>, NoMemory>
    ensures { IfOk result (λ o. o ≡ story_with_of word.now (item_names items.now)) }
{
    let names = parts(alloc, items, b',')?;
    story_with(alloc, word, &names)
}

/// The story of the parts of a word.
fn story_of_parts(alloc: Global, parts: &[&[u8]]) -> Result<Option<Story>, NoMemory>
    ensures { IfOk result (λ o. o ≡ story_parts (words_in parts.now)) }
{
    match parts {
        [word] => story_with(alloc, word, &[]),
        [word, items] => story_with_list(alloc, word, items),
        _ => Ok(None),
    }
}

/// The story that a word is.
#[tactic(auto, unfolding(crate::specs::Stories::story_of))]
fn story(alloc: Global, word: &[u8]) -> Result<Option<Story>, NoMemory>
    ensures { IfOk result (λ o. o ≡ story_of word.now) }
{
    let parts = parts(alloc, word, b':')?;
    story_of_parts(alloc, &parts)
}

/// Adds the stories that words are. Whether each word is one.
fn push_stories(alloc: Global, words: &[&[u8]], stories: &mut Stories) -> Result<bool, NoMemory>
    ensures { IfOk result (λ whole. (if whole then Some stories.new else None) ≡ option_map (λ more. stories.old ++ more) (stories_of (words_in words.now))) }
{
    for word in words {
        match story(alloc, word)? {
            None => return Ok(false),
            Some(story) => stories.push(story)?,
        }
    }
    Ok(true)
}

/// The stories that words are, if each is one.
fn stories(alloc: Global, words: &[&[u8]]) -> Result<Option<Stories>, NoMemory>
    ensures { IfOk result (λ o. o ≡ stories_of (words_in words.now)) }
{
    let mut stories = Stories::new(alloc);
    if push_stories(alloc, words, &mut stories)? {
        Ok(Some(stories))
    } else {
        Ok(None)
    }
}

/// The same, if there is one.
pub fn some_stories(alloc: Global, words: &[&[u8]]) -> Result<Option<Stories>, NoMemory>
    ensures { IfOk result (λ o. o ≡ some_stories_of (words_in words.now)) }
{
    if words.is_empty() {
        Ok(None)
    } else {
        stories(alloc, words)
    }
}

/// Whether a story has this ID.
fn has_id(story: &Story, id: &Id) -> bool
    ensures { result ≡ bytes_eq id.now story.now.id }
{
    *id == story.id
}

/// Whether a story of these has this ID.
fn is_among(id: &Id, stories: &[Story]) -> bool
    ensures { result ≡ stands_in_of id.now (story_ids stories.now) }
{
    let mut rest = stories;
    while let [story, more @ ..] = rest {
        if has_id(story, id) {
            return true;
        }
        rest = more;
    }
    false
}

/// Whether a story has the ID of one of these.
fn repeats(story: &Story, stories: &[Story]) -> bool
    ensures { result ≡ stands_in_of story.now.id (story_ids stories.now) }
{
    is_among(&story.id, stories)
}

/// Whether no two stories have one ID.
fn have_distinct_ids(stories: &[Story]) -> bool
    ensures { result ≡ are_distinct_of (story_ids stories.now) }
{
    let mut rest = stories;
    while let [story, more @ ..] = rest {
        if repeats(story, more) {
            return false;
        }
        rest = more;
    }
    true
}

/// The stories that words are, if each is one and no two have one ID.
pub fn distinct_stories(alloc: Global, words: &[&[u8]]) -> Result<Option<Stories>, NoMemory>
    ensures value { IfOk result (λ o. o ≡ if_distinct (stories_of (words_in words.now))) }
    ensures distinct { IfOk result (λ o. IfSome o (λ stories. AreDistinct (story_ids stories))) }
{
    match stories(alloc, words)? {
        None => Ok(None),
        Some(stories) => {
            if have_distinct_ids(stories.as_slice()) {
                Ok(Some(stories))
            } else {
                Ok(None)
            }
        }
    }
}
