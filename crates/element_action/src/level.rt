//! The list that an action edits.

use mos_fields::OptId;

/// The list of an order that an action edits: that of its stories, or that of the items of the story with this
/// storyID.
#[derive(Clone, Copy)]
pub enum Level<'a> {
    /// the stories
    Stories,
    /// the items of the story that has this storyID
    Items(&'a OptId),
}
