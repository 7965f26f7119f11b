//! Actions on the stories and items of a running order.
ghost use Rattle.std.specs.Prelude.{◌≡◌, IfOk};

use crate::copies::{pair, triple};
use crate::{Items, Stories};
use mos_fields::{NoMemory, OptId, OptIds};

/// What a roElementAction does to a running order. Its ten forms are INSERT, REPLACE, MOVE, DELETE and SWAP, each of
/// stories and of items.
///
/// An empty `target` stands for the end of the list where something is inserted or moved.
#[derive(Drop)]
pub enum Action {
    /// Puts stories before the target.
    InsertStories {
        target: OptId,
        sources: Stories,
    },
    /// Puts stories in place of the target.
    ReplaceStory {
        target: OptId,
        sources: Stories,
    },
    /// Puts items before the target in a story.
    InsertItems {
        story: OptId,
        target: OptId,
        sources: Items,
    },
    /// Puts items in place of the target in a story.
    ReplaceItem {
        story: OptId,
        target: OptId,
        sources: Items,
    },
    /// Moves stories before the target.
    MoveStories {
        target: OptId,
        sources: OptIds,
    },
    /// Moves items before the target in a story.
    MoveItems {
        story: OptId,
        target: OptId,
        sources: OptIds,
    },
    /// Removes stories.
    DeleteStories {
        sources: OptIds,
    },
    /// Removes items of a story.
    DeleteItems {
        story: OptId,
        sources: OptIds,
    },
    /// Exchanges two stories.
    SwapStories {
        first: OptId,
        second: OptId,
    },
    /// Exchanges two items of a story.
    SwapItems {
        story: OptId,
        first: OptId,
        second: OptId,
    },
}

impl Action {
    /// The same action again, in memory of its own. The only error is that memory runs out.
    pub fn try_clone(&self) -> Result<Self, NoMemory>
        ensures { IfOk result (λ t. t ≡ self.now) }
    {
        match self {
            Action::InsertStories { target, sources } => {
                let (target, sources) = pair(target, sources)?;
                Ok(Action::InsertStories { target, sources })
            }
            Action::ReplaceStory { target, sources } => {
                let (target, sources) = pair(target, sources)?;
                Ok(Action::ReplaceStory { target, sources })
            }
            Action::InsertItems {
                story,
                target,
                sources,
            } => {
                let (story, target, sources) = triple(story, target, sources)?;
                Ok(Action::InsertItems {
                    story,
                    target,
                    sources,
                })
            }
            Action::ReplaceItem {
                story,
                target,
                sources,
            } => {
                let (story, target, sources) = triple(story, target, sources)?;
                Ok(Action::ReplaceItem {
                    story,
                    target,
                    sources,
                })
            }
            Action::MoveStories { target, sources } => {
                let (target, sources) = pair(target, sources)?;
                Ok(Action::MoveStories { target, sources })
            }
            Action::MoveItems {
                story,
                target,
                sources,
            } => {
                let (story, target, sources) = triple(story, target, sources)?;
                Ok(Action::MoveItems {
                    story,
                    target,
                    sources,
                })
            }
            Action::DeleteStories { sources } => {
                let sources = sources.try_clone()?;
                Ok(Action::DeleteStories { sources })
            }
            Action::DeleteItems { story, sources } => {
                let (story, sources) = pair(story, sources)?;
                Ok(Action::DeleteItems { story, sources })
            }
            Action::SwapStories { first, second } => {
                let (first, second) = pair(first, second)?;
                Ok(Action::SwapStories { first, second })
            }
            Action::SwapItems {
                story,
                first,
                second,
            } => {
                let (story, first, second) = triple(story, first, second)?;
                Ok(Action::SwapItems {
                    story,
                    first,
                    second,
                })
            }
        }
    }
}
