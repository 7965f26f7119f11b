//! Element actions on an order.
ghost use Rattle.std.specs.Prelude.{◌≡◌, Some, OnOk, OnErr, IfErr};
ghost use Rattle.mos_edits.specs.KeyedLists.Applied.{Done};
ghost use Rattle.mos_edits.specs.Actions.{act as act_of};
ghost use Rattle.mos_edits.specs.Orders.{shape, form_of, taken_out, with_stories};
ghost use Rattle.order_table.specs.Rows.{without_rows};
ghost use Rattle.element_action.specs.Answers.{IsAnswer, IsCause, takes_memory};

use crate::fault::ActFault;
use crate::{item_forms, story_forms};
use mos_values::Action;
use running_order::Order;
use std::alloc::Global;

// The action, by its form.
fn act_by_form(alloc: Global, order: &mut Order, action: &Action) -> Result<(), ActFault>
    ensures { IsAnswer (takes_memory (form_of action.now)) (taken_out (form_of action.now)) (act_of shape (form_of action.now) order.old.stories) order.old order.new result }
{
    match action {
        Action::InsertStories { target, sources } => {
            story_forms::insert(alloc, order, target, sources)
        }
        Action::ReplaceStory { target, sources } => {
            story_forms::replace(alloc, order, target, sources)
        }
        Action::InsertItems {
            story,
            target,
            sources,
        } => item_forms::insert(alloc, order, story, target, sources),
        Action::ReplaceItem {
            story,
            target,
            sources,
        } => item_forms::replace(alloc, order, story, target, sources),
        Action::MoveStories { target, sources } => story_forms::shift(
            alloc, order, target, sources,
        ),
        Action::MoveItems {
            story,
            target,
            sources,
        } => item_forms::shift(alloc, order, story, target, sources),
        Action::DeleteStories { sources } => story_forms::delete(alloc, order, sources),
        Action::DeleteItems { story, sources } => item_forms::delete(alloc, order, story, sources),
        Action::SwapStories { first, second } => story_forms::swap(order, first, second),
        Action::SwapItems {
            story,
            first,
            second,
        } => item_forms::swap(order, story, first, second),
    }
}

/// Does a roElementAction on an order.
///
/// The first fault is answered: that of the story of an item form, then of the target, then of the sources from left to
/// right. `Missing` comes exactly where an ID has to be there and isn't, `AlreadyThere` exactly where an ID is put in
/// that is there. `NoMemory` may come in place of a fault, for its ID, and in place of the result of INSERT and REPLACE;
/// MOVE, DELETE and SWAP take no memory for theirs. A story that is taken out loses its script, every other one keeps its
/// own. After each error the order is as it was.
pub fn act(alloc: Global, order: &mut Order, action: &Action) -> Result<(), ActFault>
    ensures ok { OnOk result (with_stories order.old.header (without_rows (taken_out (form_of action.now)) order.old.scripts) (act_of shape (form_of action.now) order.old.stories) ≡ Done (Some order.new)) }
    ensures fault { IfErr result (IsCause (takes_memory (form_of action.now)) (act_of shape (form_of action.now) order.old.stories)) }
    ensures err { OnErr result (order.new ≡ order.old) }
{
    act_by_form(alloc, order, action)
}
