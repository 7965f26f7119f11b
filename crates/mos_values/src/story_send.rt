//! Whole stories with their text.
ghost use Rattle.std.specs.Prelude.{◌≡◌, IfOk};

use crate::Unreads;
use crate::copies::{pair, triple};
use mos_fields::{Id, NoMemory, Slug, Text, Unread, triple_ok};

/// A story with its text, as roStorySend carries it.
#[derive(Drop)]
pub struct StorySend {
    /// roID
    pub ro: Id,
    /// storyID
    pub story: Id,
    /// storySlug
    pub slug: Option<Slug>,
    /// storyNum
    pub num: Option<Text>,
    /// storyBody, as it was written
    pub body: Unread,
    /// mosExternalMetadata, each element as it was written
    pub metadata: Unreads,
    /// the elements of other names, in order, each as it was written
    pub others: Unreads,
}

impl StorySend {
    /// The same value again, in memory of its own. The only error is that memory runs out.
    pub fn try_clone(&self) -> Result<Self, NoMemory>
        ensures { IfOk result (λ t. t ≡ self.now) }
    {
        let ((ro, story, slug), (num, body), (metadata, others)) = triple_ok(
            triple(&self.ro, &self.story, &self.slug),
            pair(&self.num, &self.body),
            pair(&self.metadata, &self.others),
        )?;
        Ok(StorySend {
            ro,
            story,
            slug,
            num,
            body,
            metadata,
            others,
        })
    }
}
