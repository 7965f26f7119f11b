//! The first fault of an action.

use mos_fields::OptId;

/// The first fault of an action, with the ID where the action has it.
#[derive(Clone, Copy)]
pub enum FirstFault<'a> {
    /// The ID has to be there and isn't.
    Missing(&'a OptId),
    /// The ID is put in and is there already.
    AlreadyThere(&'a OptId),
}
