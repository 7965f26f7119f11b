//! Whole running orders, as messages carry them.
ghost use Rattle.std.specs.Prelude.{◌≡◌, ◌↔◌, [], ◌∷◌, ◌++◌, IfOk, OnOk, OnErr, Err, Contains, IsTrue};
ghost use Rattle.mos_values.specs.Distinct.{AreDistinct, story_ids};

use crate::Stories;
use crate::header::Header;
use crate::ids::{is_story_among, repeats_story};
use crate::push_fault::PushFault;
use crate::story::Story;
use mos_fields::{Id, NoMemory};
use std::alloc::Global;
use std::marker::Model;

/// A running order, as roCreate, roReplace and roList carry it. In every value of this type the stories have distinct
/// storyIDs.
#[derive(Drop)]
pub struct OrderBody {
    /// what stands before the stories
    pub header: Header,
    /// the stories, in order
    pub stories: Stories,
}

impl Model for OrderBody {
    ghost use Rattle.mos_values.specs.Distinct.{AreDistinct, story_ids};
    ghost use Rattle.mos_values.specs.OrderValue.{OrderBody as Value_};

    ghost Value = { Value_ };

    ghost view = { λ b. record { header = b.header; stories = b.stories } };

    ghost invariant = { λ b. AreDistinct (story_ids b.stories) };
}

impl OrderBody {
    /// A running order without stories. It takes no memory; the list of stories grows in this allocator.
    pub fn new(alloc: Global, header: Header) -> Self
        ensures { result ≡ record { header = header; stories = [] } }
    {
        OrderBody {
            header,
            stories: Stories::new(alloc),
        }
    }

    /// The law of the type: no two stories have the same storyID.
    pub fn has_distinct_stories(&self)
        ensures { AreDistinct (story_ids self.now.stories) }
    {
        let _ = &self.stories;
    }

    /// Whether a story has this storyID.
    pub fn has_story(&self, id: &Id) -> bool
        ensures { IsTrue result ↔ Contains (story_ids self.now.stories) id.now }
    {
        is_story_among(self.stories.as_slice(), id)
    }

    /// Adds a story at the end. `Repeat` comes exactly where a story has its storyID already. With either fault the
    /// order stays as it was, and the story is dropped.
    pub fn push_story(&mut self, s: Story) -> Result<(), PushFault>
        ensures ok { OnOk result (self.new ≡ record self.old { stories = self.old.stories ++ s ∷ [] }) }
        ensures repeat { (result ≡ Err PushFault.Repeat) ↔ Contains (story_ids self.old.stories) s.id }
        ensures err { OnErr result (self.new ≡ self.old) }
    {
        if repeats_story(self.stories.as_slice(), &s) {
            return Err(PushFault::Repeat);
        }
        self.stories.push(s)?;
        Ok(())
    }

    /// The same order again, in memory of its own. The only error is that memory runs out.
    pub fn try_clone(&self) -> Result<Self, NoMemory>
        ensures { IfOk result (λ t. t ≡ self.now) }
    {
        Ok(OrderBody {
            header: self.header.try_clone()?,
            stories: self.stories.try_clone()?,
        })
    }
}
