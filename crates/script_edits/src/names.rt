//! IDs that words are.
ghost use Rattle.std.specs.Prelude.{◌≡◌, ◌++◌, IfOk, IfSome, OnOk, Some, true};
ghost use Rattle.std.specs.Option.{option_map};
ghost use Rattle.script_edits.specs.Edits.{some_ids as some_ids_of};
ghost use Rattle.script_edits.specs.Words.{both as both_of, name_of, target_of, words_in};

use crate::words::{are_names, is_name};
use mos_fields::{Id, NoMemory, OptId, OptIds, Slug};
use std::alloc::Global;

/// Appends the characters that bytes of ASCII are.
pub fn push_chars(word: &[u8], chars: &mut Vec<char>) -> Result<(), NoMemory>
    ensures { OnOk result (chars.new.items ≡ chars.old.items ++ word.now) }
{
    for &byte in word {
        chars.push(char::from(byte))?;
    }
    Ok(())
}

/// The characters that bytes of ASCII are.
fn chars_of(alloc: Global, word: &[u8]) -> Result<Vec<char>, NoMemory>
    ensures { IfOk result (λ v. v.items ≡ word.now) }
{
    let mut chars = Vec::new(alloc);
    push_chars(word, &mut chars)?;
    Ok(chars)
}

/// The ID that a name is.
pub fn id_named(alloc: Global, word: &[u8]) -> Result<Id, NoMemory>
    ensures { IfOk result (λ i. i ≡ word.now) }
{
    let chars = chars_of(alloc, word)?;
    match Id::try_new(alloc, &chars) {
        Ok(id) => Ok(id),
        Err(_) => Err(NoMemory),
    }
}

/// The same, of a type that has an empty ID too.
pub fn opt_id_named(alloc: Global, word: &[u8]) -> Result<OptId, NoMemory>
    ensures { IfOk result (λ i. i ≡ word.now) }
{
    let chars = chars_of(alloc, word)?;
    match OptId::try_new(alloc, &chars) {
        Ok(id) => Ok(id),
        Err(_) => Err(NoMemory),
    }
}

/// The slug that a name is.
pub fn slug_named(alloc: Global, word: &[u8]) -> Result<Slug, NoMemory>
    ensures { IfOk result (λ i. i ≡ word.now) }
{
    let chars = chars_of(alloc, word)?;
    match Slug::try_new(alloc, &chars) {
        Ok(slug) => Ok(slug),
        Err(_) => Err(NoMemory),
    }
}

/// The slug that an ID is.
pub fn slug_of_id(alloc: Global, id: &Id) -> Result<Slug, NoMemory>
    ensures { IfOk result (λ s. s ≡ id.now) }
{
    let mut chars = Vec::new(alloc);
    id.push_to(&mut chars)?;
    match Slug::try_new(alloc, &chars) {
        Ok(slug) => Ok(slug),
        Err(_) => Err(NoMemory),
    }
}

/// The ID that a word is, if it is a name.
pub fn name(alloc: Global, word: &[u8]) -> Result<Option<Id>, NoMemory>
    ensures { IfOk result (λ o. o ≡ name_of word.now) }
{
    if is_name(word) {
        let id = id_named(alloc, word)?;
        Ok(Some(id))
    } else {
        Ok(None)
    }
}

/// The same, of a type that has an empty ID too.
pub fn opt_name(alloc: Global, word: &[u8]) -> Result<Option<OptId>, NoMemory>
    ensures { IfOk result (λ o. o ≡ name_of word.now) }
{
    if is_name(word) {
        let id = opt_id_named(alloc, word)?;
        Ok(Some(id))
    } else {
        Ok(None)
    }
}

/// The slug that a word is, if it is a name.
pub fn slug_name(alloc: Global, word: &[u8]) -> Result<Option<Slug>, NoMemory>
    ensures { IfOk result (λ o. o ≡ name_of word.now) }
{
    if is_name(word) {
        let slug = slug_named(alloc, word)?;
        Ok(Some(slug))
    } else {
        Ok(None)
    }
}

/// The target that a word is: a name, or `-` for the empty one.
pub fn target(alloc: Global, word: &[u8]) -> Result<Option<OptId>, NoMemory>
    ensures { IfOk result (λ o. o ≡ target_of word.now) }
{
    if word == b"-".as_slice() {
        let nothing = opt_id_named(alloc, &[])?;
        Ok(Some(nothing))
    } else {
        opt_name(alloc, word)
    }
}

/// The IDs that names are.
fn ids_named(alloc: Global, words: &[&[u8]]) -> Result<OptIds, NoMemory>
    ensures { IfOk result (λ ids. ids ≡ words_in words.now) }
{
    let mut ids = OptIds::new(alloc);
    for word in words {
        ids.push(opt_id_named(alloc, word)?)?;
    }
    Ok(ids)
}

/// The IDs that words are, if each is a name and there is one.
pub fn some_ids(alloc: Global, words: &[&[u8]]) -> Result<Option<OptIds>, NoMemory>
    ensures { IfOk result (λ o. o ≡ some_ids_of (words_in words.now)) }
{
    if words.is_empty() || !are_names(words) {
        Ok(None)
    } else {
        let ids = ids_named(alloc, words)?;
        Ok(Some(ids))
    }
}

/// Two values, where both are there.
pub fn both<A: Drop, B: Drop>(a: Option<A>, b: Option<B>) -> Option<(A, B)>
    ensures { result ≡ both_of (λ x y. (x, y)) a b }
{
    match (a, b) {
        (Some(a), Some(b)) => Some((a, b)),
        _ => None,
    }
}
