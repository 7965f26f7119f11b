//! What an edit makes of an order that stays as it is.
ghost use Rattle.std.specs.Prelude.{◌≡◌, true, Some, IfOk, IfErr};
ghost use Rattle.std.specs.Option.{option_copied};
ghost use Rattle.mos_edits.specs.KeyedLists.Applied.{Done};
ghost use Rattle.mos_edits.specs.Orders.{apply as apply_of, edit_ro};
ghost use Rattle.mos_edits.specs.declared.edit.Edit.TheVariants as edit;
ghost use Rattle.element_action.specs.Answers.{IsCause};

use crate::checks::check;
use crate::edits::apply;
use crate::fault::{ActFault, missing_story};
use mos_edits::Edit;
use mos_fields::{Id, NoMemory};
use mos_values::{Action, StorySend};
use running_order::Order;
use std::alloc::Global;

// The first fault of a roElementAction of an order that is there.
fn check_act(alloc: Global, order: &Order, ro: &Id, action: &Action) -> Result<(), ActFault>
    ensures { IfErr result (IsCause true (apply_of ro.now (Some order.now) (edit.Act ro.now action.now))) }
{
    check(alloc, order, action)
}

// The first fault of a roStorySend to an order that is there.
fn check_script(order: &Order, script: &StorySend) -> Result<(), ActFault>
    ensures { IfErr result (IsCause true (apply_of script.now.ro (Some order.now) (edit.Script script.now))) }
{
    if order.has_story(&script.story) {
        Ok(())
    } else {
        Err(missing_story(&script.story))
    }
}

// The first fault of an edit of an order that is there, where it can be told by looking at the stories alone.
fn check_there(alloc: Global, order: &Order, edit: &Edit) -> Result<(), ActFault>
    ensures { IfErr result (IsCause true (apply_of (edit_ro edit.now) (Some order.now) edit.now)) }
{
    match edit {
        Edit::Act { ro, action } => check_act(alloc, order, ro, action),
        Edit::Script(script) => check_script(order, script.as_ref()),
        _ => Ok(()),
    }
}

// The same of an order that is there or not. Where it isn't, nothing is copied in any case.
fn check_edit(alloc: Global, order: Option<&Order>, edit: &Edit) -> Result<(), ActFault>
    ensures { IfErr result (IsCause true (apply_of (edit_ro edit.now) (option_copied order.entry) edit.now)) }
{
    match order {
        Some(order) => check_there(alloc, order, edit),
        None => Ok(()),
    }
}

// The same order again, where there is one.
fn copied(order: Option<&Order>) -> Result<Option<Order>, NoMemory>
    ensures { IfOk result (λ o. o ≡ option_copied order.entry) }
{
    match order {
        Some(order) => Ok(Some(order.try_clone()?)),
        None => Ok(None),
    }
}

// What the edit makes of a copy.
fn applied_to_copy(
    alloc: Global,
    order: Option<&Order>,
    edit: &Edit,
) -> Result<Option<Order>, ActFault>
    ensures ok { IfOk result (λ o. apply_of (edit_ro edit.now) (option_copied order.entry) edit.now ≡ Done o) }
    ensures fault { IfErr result (IsCause true (apply_of (edit_ro edit.now) (option_copied order.entry) edit.now)) }
{
    let mut made = copied(order)?;
    match apply(alloc, &mut made, edit) {
        Ok(()) => Ok(made),
        Err(fault) => Err(fault),
    }
}

/// What an edit makes of an order that is there or not, which stays as it is.
///
/// The faults are those of `apply`. The order is copied once, and not at all where a roElementAction or a roStorySend is
/// refused. `NoMemory` may come in place of each answer.
pub fn applied(alloc: Global, order: Option<&Order>, edit: &Edit) -> Result<Option<Order>, ActFault>
    ensures ok { IfOk result (λ o. apply_of (edit_ro edit.now) (option_copied order.entry) edit.now ≡ Done o) }
    ensures fault { IfErr result (IsCause true (apply_of (edit_ro edit.now) (option_copied order.entry) edit.now)) }
{
    match check_edit(alloc, order, edit) {
        Ok(()) => applied_to_copy(alloc, order, edit),
        Err(fault) => Err(fault),
    }
}
