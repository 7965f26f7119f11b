//! Edits of an order that is there or not.
ghost use Rattle.std.specs.Prelude.{◌≡◌, Some, true, false, OnOk, OnErr, IfErr};
ghost use Rattle.mos_edits.specs.KeyedLists.Applied.{Done};
ghost use Rattle.mos_edits.specs.Orders.{apply as apply_of, edit_ro, form_of};
ghost use Rattle.mos_edits.specs.declared.edit.Edit.TheVariants as edit;
ghost use Rattle.element_action.specs.Answers.{IsApplied, IsCause, edit_takes_memory, takes_memory};

use crate::actions::act;
use crate::fault::{ActFault, missing_order, missing_story, order_there};
use mos_edits::Edit;
use mos_fields::{Air, Id};
use mos_values::{Action, Boxed, HeaderPatch, OrderBody, StorySend};
use running_order::Order;
use std::alloc::Global;

// roCreate: the order comes to be where none is there.
fn create(alloc: Global, order: &mut Option<Order>, body: &OrderBody) -> Result<(), ActFault>
    ensures { IsApplied true (apply_of body.now.header.ro order.old (edit.Create body.now)) order.old order.new result }
{
    match order {
        Some(_) => Err(order_there(&body.header.ro)),
        None => {
            *order = Some(Order::from_body(alloc, body)?);
            Ok(())
        }
    }
}

// roReplace: the order is that of the body from now on.
fn replace(alloc: Global, order: &mut Option<Order>, body: &OrderBody) -> Result<(), ActFault>
    ensures { IsApplied true (apply_of body.now.header.ro order.old (edit.Replace body.now)) order.old order.new result }
{
    match order {
        None => Err(missing_order(&body.header.ro)),
        Some(there) => {
            *there = Order::from_body(alloc, body)?;
            Ok(())
        }
    }
}

// roDelete: the order is removed.
fn delete(order: &mut Option<Order>, ro: &Id) -> Result<(), ActFault>
    ensures { IsApplied false (apply_of ro.now order.old (edit.Delete ro.now)) order.old order.new result }
{
    match order {
        None => Err(missing_order(ro)),
        Some(_) => {
            *order = None;
            Ok(())
        }
    }
}

// roMetadataReplace: the fields given replace those of the header.
fn patch_header(order: &mut Option<Order>, patch: &HeaderPatch) -> Result<(), ActFault>
    ensures { IsApplied true (apply_of patch.now.ro order.old (edit.Metadata patch.now)) order.old order.new result }
{
    match order {
        None => Err(missing_order(&patch.ro)),
        Some(there) => {
            there.apply_header(patch)?;
            Ok(())
        }
    }
}

// roElementAction.
fn act_on(
    alloc: Global,
    order: &mut Option<Order>,
    ro: &Id,
    action: &Action,
) -> Result<(), ActFault>
    ensures { IsApplied (takes_memory (form_of action.now)) (apply_of ro.now order.old (edit.Act ro.now action.now)) order.old order.new result }
{
    match order {
        None => Err(missing_order(ro)),
        Some(there) => act(alloc, there, action),
    }
}

// roReadyToAir: the order has to be there, and stays as it is.
fn release(order: &Option<Order>, ro: &Id, _air: Air) -> Result<(), ActFault>
    ensures { IsApplied false (apply_of ro.now order.now (edit.Air ro.now _air)) order.now order.now result }
{
    match order {
        None => Err(missing_order(ro)),
        Some(_) => Ok(()),
    }
}

// roStorySend to an order that is there: the script of its story.
fn put_script(order: &mut Order, script: &Boxed<StorySend>) -> Result<(), ActFault>
    ensures { IsApplied true (apply_of script.now.ro (Some order.old) (edit.Script script.now)) (Some order.old) (Some order.new) result }
{
    if order.share_script(script)? {
        Ok(())
    } else {
        Err(missing_story(&script.as_ref().story))
    }
}

// roStorySend: the script is put on its story in place of a former one.
fn send_script(order: &mut Option<Order>, script: &Boxed<StorySend>) -> Result<(), ActFault>
    ensures { IsApplied true (apply_of script.now.ro order.old (edit.Script script.now)) order.old order.new result }
{
    match order {
        None => Err(missing_order(&script.as_ref().ro)),
        Some(there) => put_script(there, script),
    }
}

// The edit, by its kind.
fn apply_by_kind(alloc: Global, order: &mut Option<Order>, edit: &Edit) -> Result<(), ActFault>
    ensures { IsApplied (edit_takes_memory edit.now) (apply_of (edit_ro edit.now) order.old edit.now) order.old order.new result }
{
    match edit {
        Edit::Create(body) => create(alloc, order, body.as_ref()),
        Edit::Replace(body) => replace(alloc, order, body.as_ref()),
        Edit::Delete(ro) => delete(order, ro),
        Edit::Metadata(patch) => patch_header(order, patch.as_ref()),
        Edit::Act { ro, action } => act_on(alloc, order, ro, action),
        Edit::Air { ro, air } => release(order, ro, *air),
        Edit::Script(script) => send_script(order, script),
    }
}

/// Applies one edit to an order that is there or not.
///
/// `AlreadyThere` of its roID comes exactly where roCreate meets an order, `Missing` of its roID exactly where another
/// edit meets none; a roElementAction of an order that is there has the faults of `act`, and a roStorySend is `Missing` of
/// its storyID exactly where the story isn't there. roReadyToAir changes nothing.
/// `NoMemory` may come in place of a fault, for its ID, and in place of the result of an edit that puts something in or
/// changes the header. After each error the order is as it was, or still not there.
pub fn apply(alloc: Global, order: &mut Option<Order>, edit: &Edit) -> Result<(), ActFault>
    ensures ok { OnOk result (apply_of (edit_ro edit.now) order.old edit.now ≡ Done order.new) }
    ensures fault { IfErr result (IsCause (edit_takes_memory edit.now) (apply_of (edit_ro edit.now) order.old edit.now)) }
    ensures err { OnErr result (order.new ≡ order.old) }
{
    apply_by_kind(alloc, order, edit)
}
