//! Edits of made events, all of the order `R`.
ghost use Rattle.std.specs.Prelude.{◌≡◌, [], ◌∷◌, IfOk};
ghost use Rattle.mos_fields.specs.declared.air.Air.TheVariants as airs;
ghost use Rattle.mos_values.specs.declared.action.Action.TheVariants as actions;
ghost use Rattle.mos_edits.specs.declared.edit.Edit.TheVariants as edits;
ghost use Rattle.script_edits.specs.Stories.{order_named};
ghost use Rattle.world_scripts.specs.Made.{made_id, made_order, made_story};

use mos_edits::Edit;
use mos_fields::{Air, Id, NoMemory, OptId, OptIds};
use mos_values::{Action, Boxed, Stories, Story};
use script_edits::{id_named, opt_id_named, order_with, story_named};
use std::alloc::Global;

/// The name of a story: S and its number.
fn word(alloc: Global, s: u64) -> Result<Vec<u8>, NoMemory>
    ensures { IfOk result (λ v. v.items ≡ made_id s) }
{
    let digits = s.to_string(alloc)?;
    let mut word = Vec::new(alloc);
    word.push(b'S')?;
    word.extend_from_slice(digits.as_bytes())?;
    Ok(word)
}

/// The ID of a story.
fn id(alloc: Global, s: u64) -> Result<OptId, NoMemory>
    ensures { IfOk result (λ i. i ≡ made_id s) }
{
    let word = word(alloc, s)?;
    opt_id_named(alloc, &word)
}

/// A list of one ID.
fn one_id(alloc: Global, s: u64) -> Result<OptIds, NoMemory>
    ensures { IfOk result (λ ids. ids ≡ made_id s ∷ []) }
{
    let mut ids = OptIds::new(alloc);
    ids.push(id(alloc, s)?)?;
    Ok(ids)
}

fn story(alloc: Global, s: u64) -> Result<Story, NoMemory>
    ensures { IfOk result (λ x. x ≡ made_story s) }
{
    let word = word(alloc, s)?;
    story_named(alloc, &word, &[])
}

/// A list of one story.
fn one_story(alloc: Global, s: u64) -> Result<Stories, NoMemory>
    ensures { IfOk result (λ stories. stories ≡ made_story s ∷ []) }
{
    let mut stories = Stories::new(alloc);
    stories.push(story(alloc, s)?)?;
    Ok(stories)
}

fn order(alloc: Global) -> Result<Id, NoMemory>
    ensures { IfOk result (λ i. i ≡ made_order) }
{
    id_named(alloc, b"R")
}

/// The order with one story comes to be.
pub fn create(alloc: Global, s: u64) -> Result<Edit, NoMemory>
    ensures { IfOk result (λ e. e ≡ edits.Create (order_named made_order (made_story s ∷ []))) }
{
    let ro = order(alloc)?;
    let stories = one_story(alloc, s)?;
    let body = order_with(alloc, ro, stories)?;
    Ok(Edit::Create(Boxed::new(alloc, body)?))
}

/// A story is put at the end.
pub fn insert(alloc: Global, s: u64) -> Result<Edit, NoMemory>
    ensures { IfOk result (λ e. e ≡ edits.Act made_order (actions.InsertStories [] (made_story s ∷ []))) }
{
    let ro = order(alloc)?;
    let target = opt_id_named(alloc, &[])?;
    let sources = one_story(alloc, s)?;
    Ok(Edit::Act {
        ro,
        action: Action::InsertStories { target, sources },
    })
}

/// Two stories change places.
pub fn swap(alloc: Global, s: u64, u: u64) -> Result<Edit, NoMemory>
    ensures { IfOk result (λ e. e ≡ edits.Act made_order (actions.SwapStories (made_id s) (made_id u))) }
{
    let ro = order(alloc)?;
    let first = id(alloc, s)?;
    let second = id(alloc, u)?;
    Ok(Edit::Act {
        ro,
        action: Action::SwapStories { first, second },
    })
}

/// A story is moved before another.
pub fn move_story(alloc: Global, s: u64, u: u64) -> Result<Edit, NoMemory>
    ensures { IfOk result (λ e. e ≡ edits.Act made_order (actions.MoveStories (made_id s) (made_id u ∷ []))) }
{
    let ro = order(alloc)?;
    let target = id(alloc, s)?;
    let sources = one_id(alloc, u)?;
    Ok(Edit::Act {
        ro,
        action: Action::MoveStories { target, sources },
    })
}

/// A story is removed.
pub fn drop_story(alloc: Global, s: u64) -> Result<Edit, NoMemory>
    ensures { IfOk result (λ e. e ≡ edits.Act made_order (actions.DeleteStories (made_id s ∷ []))) }
{
    let ro = order(alloc)?;
    let sources = one_id(alloc, s)?;
    Ok(Edit::Act {
        ro,
        action: Action::DeleteStories { sources },
    })
}

/// The order is released.
pub fn ready(alloc: Global) -> Result<Edit, NoMemory>
    ensures { IfOk result (λ e. e ≡ edits.Air made_order airs.Ready) }
{
    let ro = order(alloc)?;
    Ok(Edit::Air {
        ro,
        air: Air::Ready,
    })
}
