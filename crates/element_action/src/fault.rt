//! Why an action or an edit doesn't apply.
ghost use Rattle.std.specs.Prelude.{◌≡◌};
ghost use Rattle.mos_edits.specs.KeyedLists.ActFault.{Missing, AlreadyThere};
ghost use Rattle.element_action.specs.Answers.{IsTold, named};
ghost use Rattle.element_action.specs.declared.fault.ActFault.TheVariants.{NoMemory as out_of_memory};

use crate::first_fault::FirstFault;
use mos_fields::{Id, OptId};
use std::alloc::{AllocError, AllocFailed};

/// Why an action or an edit doesn't apply.
#[derive(Drop)]
pub enum ActFault {
    /// A story, an item or an order that has to be there isn't.
    Missing { id: OptId },
    /// A story, an item or an order that is put in is there already.
    AlreadyThere { id: OptId },
    /// There was no memory for the result, or for the ID of the fault.
    NoMemory,
}

impl From<AllocError> for ActFault {
    ghost from_gives = { λ _ e. e ≡ out_of_memory };

    fn from(_fault: AllocError) -> ActFault {
        ActFault::NoMemory
    }
}

impl<T: Drop> From<AllocFailed<T>> for ActFault {
    ghost from_gives = { λ _ e. e ≡ out_of_memory };

    fn from(_fault: AllocFailed<T>) -> ActFault {
        ActFault::NoMemory
    }
}

fn missing(id: &OptId) -> ActFault
    ensures { IsTold (Missing id.now) result }
{
    match id.try_clone() {
        Ok(id) => ActFault::Missing { id },
        Err(_) => ActFault::NoMemory,
    }
}

fn already_there(id: &OptId) -> ActFault
    ensures { IsTold (AlreadyThere id.now) result }
{
    match id.try_clone() {
        Ok(id) => ActFault::AlreadyThere { id },
        Err(_) => ActFault::NoMemory,
    }
}

/// A fault that was found, with an ID of its own.
pub fn told(fault: FirstFault<'_>) -> ActFault
    ensures { IsTold (named fault.entry) result }
{
    match fault {
        FirstFault::Missing(id) => missing(id),
        FirstFault::AlreadyThere(id) => already_there(id),
    }
}

/// The fault that an order isn't there.
pub fn missing_order(ro: &Id) -> ActFault
    ensures { IsTold (Missing ro.now) result }
{
    match ro.try_clone() {
        Ok(ro) => ActFault::Missing {
            id: OptId::from_id(ro),
        },
        Err(_) => ActFault::NoMemory,
    }
}

/// The fault that a story isn't there.
pub fn missing_story(story: &Id) -> ActFault
    ensures { IsTold (Missing story.now) result }
{
    missing_order(story)
}

/// The fault that an order is there already.
pub fn order_there(ro: &Id) -> ActFault
    ensures { IsTold (AlreadyThere ro.now) result }
{
    match ro.try_clone() {
        Ok(ro) => ActFault::AlreadyThere {
            id: OptId::from_id(ro),
        },
        Err(_) => ActFault::NoMemory,
    }
}
