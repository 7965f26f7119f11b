//! Edits of a script.
ghost use Rattle.std.specs.Prelude.{◌≡◌, IfOk, MatchResult, Some};
ghost use Rattle.std.specs.Option.{option_map};
ghost use Rattle.mos_values.specs.Distinct.{AreDistinct, story_ids};
ghost use Rattle.script_edits.specs.declared.edit_verb.EditVerb.TheVariants.{Create, Replace, Delete, Meta, Ready, NotReady};
ghost use Rattle.script_edits.specs.Edits.{acts as acts_of, edit_form, edit_of, edit_with};
ghost use Rattle.script_edits.specs.Stories.{header_named, if_distinct, order_named, slug_patch as slug_patch_of, stories_of};
ghost use Rattle.script_edits.specs.Words.{name_of, words_in};

use crate::edit_verb::EditVerb;
use crate::item_actions::{delete_items, insert_items, move_items, replace_item, swap_items};
use crate::names::{name, slug_name, slug_of_id};
use crate::scripts::script;
use crate::stories::distinct_stories;
use crate::story_actions::{
    delete_stories, insert_stories, move_stories, replace_story, swap_stories,
};
use mos_edits::Edit;
use mos_fields::{Air, Id, NoMemory, Slug};
use mos_values::{Action, Boxed, Header, HeaderPatch, OrderBody, Stories, Unreads};
use std::alloc::Global;

/// The header of these alone.
fn header_with(alloc: Global, ro: Id, slug: Slug) -> Header
    ensures { result ≡ record (header_named ro) { slug = slug } }
{
    Header {
        ro,
        slug,
        channel: None,
        ed_start: None,
        ed_dur: None,
        trigger: None,
        macro_in: None,
        macro_out: None,
        metadata: Unreads::new(alloc),
        others: Unreads::new(alloc),
    }
}

/// The header of a name.
fn header_of(alloc: Global, ro: Id) -> Result<Header, NoMemory>
    ensures { IfOk result (λ h. h ≡ header_named ro) }
{
    let slug = slug_of_id(alloc, &ro)?;
    Ok(header_with(alloc, ro, slug))
}

/// The order of a name with these stories, which have distinct IDs.
pub fn order_with(alloc: Global, ro: Id, stories: Stories) -> Result<OrderBody, NoMemory>
    requires { AreDistinct (story_ids stories) }
    ensures { IfOk result (λ b. b ≡ order_named ro stories) }
{
    let header = header_of(alloc, ro)?;
    Ok(OrderBody { header, stories })
}

/// The order of a name with the stories that words are.
fn order(alloc: Global, ro: Id, words: &[&[u8]]) -> Result<Option<OrderBody>, NoMemory>
    ensures { IfOk result (λ o. o ≡ option_map (order_named ro) (if_distinct (stories_of (words_in words.now)))) }
{
    match distinct_stories(alloc, words)? {
        None => Ok(None),
        Some(stories) => {
            let body = order_with(alloc, ro, stories)?;
            Ok(Some(body))
        }
    }
}

/// `create`: the stories.
fn create(alloc: Global, ro: Id, words: &[&[u8]]) -> Result<Option<Edit>, NoMemory>
    ensures { IfOk result (λ o. o ≡ edit_form Create ro (words_in words.now)) }
{
    match order(alloc, ro, words)? {
        None => Ok(None),
        Some(body) => Ok(Some(Edit::Create(Boxed::new(alloc, body)?))),
    }
}

/// `replace`: the stories.
fn replace(alloc: Global, ro: Id, words: &[&[u8]]) -> Result<Option<Edit>, NoMemory>
    ensures { IfOk result (λ o. o ≡ edit_form Replace ro (words_in words.now)) }
{
    match order(alloc, ro, words)? {
        None => Ok(None),
        Some(body) => Ok(Some(Edit::Replace(Boxed::new(alloc, body)?))),
    }
}

/// `delete`: nothing more.
fn delete(ro: Id, words: &[&[u8]]) -> Option<Edit>
    ensures { result ≡ edit_form Delete ro (words_in words.now) }
{
    match words {
        [] => Some(Edit::Delete(ro)),
        _ => None,
    }
}

/// `ready`: nothing more.
fn ready(ro: Id, words: &[&[u8]]) -> Option<Edit>
    ensures { result ≡ edit_form Ready ro (words_in words.now) }
{
    match words {
        [] => Some(Edit::Air {
            ro,
            air: Air::Ready,
        }),
        _ => None,
    }
}

/// `notready`: nothing more.
fn not_ready(ro: Id, words: &[&[u8]]) -> Option<Edit>
    ensures { result ≡ edit_form NotReady ro (words_in words.now) }
{
    match words {
        [] => Some(Edit::Air {
            ro,
            air: Air::NotReady,
        }),
        _ => None,
    }
}

/// The header that gives an order another slug.
fn slug_patch(alloc: Global, ro: Id, slug: Slug) -> HeaderPatch
    ensures { result ≡ slug_patch_of ro slug }
{
    HeaderPatch {
        ro,
        slug: Some(slug),
        channel: None,
        ed_start: None,
        ed_dur: None,
        trigger: None,
        macro_in: None,
        macro_out: None,
        metadata: Unreads::new(alloc),
        others: Unreads::new(alloc),
    }
}

/// `meta`: the slug.
fn meta(alloc: Global, ro: Id, words: &[&[u8]]) -> Result<Option<Edit>, NoMemory>
    ensures { IfOk result (λ o. o ≡ edit_form Meta ro (words_in words.now)) }
{
    match words {
        [s] => match slug_name(alloc, s)? {
            None => Ok(None),
            Some(slug) => {
                let patch = slug_patch(alloc, ro, slug);
                Ok(Some(Edit::Metadata(Boxed::new(alloc, patch)?)))
            }
        },
        _ => Ok(None),
    }
}

/// The edit that an action on an order is.
fn acts(ro: Id, action: Result<Option<Action>, NoMemory>) -> Result<Option<Edit>, NoMemory>
    ensures { IfOk result (λ o. MatchResult action (λ a. o ≡ acts_of ro a) (λ e. ⊥)) }
{
    match action {
        Err(fault) => Err(fault),
        Ok(None) => Ok(None),
        Ok(Some(action)) => Ok(Some(Edit::Act { ro, action })),
    }
}

/// The edit of the words behind a first word and a roID.
fn form(alloc: Global, verb: EditVerb, ro: Id, words: &[&[u8]]) -> Result<Option<Edit>, NoMemory>
    ensures { IfOk result (λ o. o ≡ edit_form verb ro (words_in words.now)) }
{
    match verb {
        EditVerb::Create => create(alloc, ro, words),
        EditVerb::Replace => replace(alloc, ro, words),
        EditVerb::Delete => Ok(delete(ro, words)),
        EditVerb::Meta => meta(alloc, ro, words),
        EditVerb::Ready => Ok(ready(ro, words)),
        EditVerb::NotReady => Ok(not_ready(ro, words)),
        EditVerb::Script => script(alloc, ro, words),
        EditVerb::Insert => acts(ro, insert_stories(alloc, words)),
        EditVerb::Sub => acts(ro, replace_story(alloc, words)),
        EditVerb::Move => acts(ro, move_stories(alloc, words)),
        EditVerb::Drop => acts(ro, delete_stories(alloc, words)),
        EditVerb::Swap => acts(ro, swap_stories(alloc, words)),
        EditVerb::InsertItems => acts(ro, insert_items(alloc, words)),
        EditVerb::SubItem => acts(ro, replace_item(alloc, words)),
        EditVerb::MoveItems => acts(ro, move_items(alloc, words)),
        EditVerb::DropItems => acts(ro, delete_items(alloc, words)),
        EditVerb::SwapItems => acts(ro, swap_items(alloc, words)),
    }
}

/// The edit of the words behind a first word, of which the first is a roID.
fn named_form(
    alloc: Global,
    verb: EditVerb,
    ro: &[u8],
    words: &[&[u8]],
) -> Result<Option<Edit>, NoMemory>
    ensures { IfOk result (λ o. o ≡ edit_with (Some verb) (name_of ro.now) (words_in words.now)) }
{
    match name(alloc, ro)? {
        None => Ok(None),
        Some(ro) => form(alloc, verb, ro, words),
    }
}

/// The edit of the words behind `cmd`.
#[tactic(auto, unfolding(crate::specs::Edits::edit_of))]
pub fn edit(alloc: Global, words: &[&[u8]]) -> Result<Option<Edit>, NoMemory>
    ensures { IfOk result (λ o. o ≡ edit_of (words_in words.now)) }
{
    match words {
        [w, r, more @ ..] => match EditVerb::find(w) {
            None => Ok(None),
            Some(verb) => named_form(alloc, verb, r, more),
        },
        _ => Ok(None),
    }
}
