//! Edits that change an order which is there.
ghost use Rattle.std.specs.Prelude.{◌≡◌, OnOk, OnErr, IfErr, Some, None};
ghost use Rattle.mos_edits.specs.KeyedLists.Applied.{Done, Fault};
ghost use Rattle.mos_edits.specs.KeyedLists.ActFault.{Missing};
ghost use Rattle.mos_edits.specs.Texts.{has_id};
ghost use Rattle.mos_values.specs.Distinct.{story_ids};
ghost use Rattle.mos_machines.specs.Device.{ready_status};
ghost use Rattle.mos_edits.specs.Orders.{apply as apply_of, with_script};
ghost use Rattle.machine_answers.specs.Answers.{status_of};
ghost use Rattle.gateway_core.specs.Parts.{decks_of};
ghost use Rattle.gateway_core.specs.Reads.{edit_of, IsTold, applied_status};

use crate::known::DeckState;
use element_action::{ActFault, act};
use machine_answers::Status;
use mos_fields::{Id, OptId};
use mos_values::{Action, Boxed, HeaderPatch, StorySend};
use running_order::Order;
use std::alloc::Global;

// What an edit does to an order that is there.
#[derive(Clone, Copy)]
pub enum Change<'a> {
    // roMetadataReplace
    Header(&'a HeaderPatch),
    // roElementAction
    Action(&'a Action),
    // roStorySend
    Script(&'a Boxed<StorySend>),
    // roReadyToAir with READY
    Release,
}

// The answer to a change that applies: READY needs a deck, where decks were handed in.
pub fn status_after(change: Change<'_>, decks: DeckState) -> Status
    ensures { status_of result ≡ applied_status change.entry (decks_of decks) }
{
    match change {
        Change::Release => release_status(decks),
        _ => Status::Okay,
    }
}

fn release_status(decks: DeckState) -> Status
    ensures { status_of result ≡ ready_status (decks_of decks) }
{
    if decks.handed && decks.left == 0 {
        Status::NoDeck
    } else {
        Status::Okay
    }
}

// There is no order, or no story, with this ID.
fn missing(id: &Id) -> ActFault
    ensures { IsTold (Fault (Missing id.now)) result }
{
    match id.try_clone() {
        Ok(id) => ActFault::Missing {
            id: OptId::from_id(id),
        },
        Err(_) => ActFault::NoMemory,
    }
}

// Puts a script on its story in place of a former one. Where the story isn't there, the order stays as it was.
fn put_script(order: &mut Order, script: &Boxed<StorySend>) -> Result<(), ActFault>
    ensures ok { OnOk result (with_script order.old script.now (has_id script.now.story (story_ids order.old.stories)) ≡ Done (Some order.new)) }
    ensures fault { IfErr result (IsTold (with_script order.old script.now (has_id script.now.story (story_ids order.old.stories)))) }
    ensures err { OnErr result (order.new ≡ order.old) }
{
    if order.share_script(script)? {
        Ok(())
    } else {
        Err(missing(&script.as_ref().story))
    }
}

// Applies a change to an order that is there.
fn change_order(
    alloc: Global,
    order: &mut Order,
    ro: &Id,
    change: Change<'_>,
) -> Result<(), ActFault>
    ensures ok { OnOk result (apply_of ro.now (Some order.old) (edit_of ro.now change.entry) ≡ Done (Some order.new)) }
    ensures fault { IfErr result (IsTold (apply_of ro.now (Some order.old) (edit_of ro.now change.entry))) }
    ensures err { OnErr result (order.new ≡ order.old) }
{
    match change {
        Change::Header(patch) => {
            order.apply_header(patch)?;
            Ok(())
        }
        Change::Action(action) => act(alloc, order, action),
        Change::Script(script) => put_script(order, script),
        Change::Release => Ok(()),
    }
}

// Applies a change to what is held. After a fault that stays as it was.
pub fn apply(
    alloc: Global,
    held: &mut Option<Order>,
    ro: &Id,
    change: Change<'_>,
) -> Result<(), ActFault>
    ensures ok { OnOk result (apply_of ro.now held.old (edit_of ro.now change.entry) ≡ Done held.new) }
    ensures fault { IfErr result (IsTold (apply_of ro.now held.old (edit_of ro.now change.entry))) }
    ensures err { OnErr result (held.new ≡ held.old) }
{
    match held {
        Some(order) => change_order(alloc, order, ro, change),
        None => Err(missing(ro)),
    }
}
