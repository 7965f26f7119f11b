//! The statuses that a roAck lists.
ghost use Rattle.std.specs.Prelude.{◌≡◌, IfOk};

use crate::try_clone::copied;
use mos_fields::{NoMemory, OptId, Text};

/// The status of a story or of an item in a roAck.
#[derive(Drop)]
pub struct AckGroup {
    /// storyID
    pub story: OptId,
    /// itemID
    pub item: OptId,
    /// objID
    pub obj: OptId,
    /// itemChannel
    pub channel: Option<Text>,
    /// status
    pub status: Text,
}

impl AckGroup {
    /// The same status again, in memory of its own. The only error is that memory runs out.
    pub fn try_clone(&self) -> Result<Self, NoMemory>
        ensures { IfOk result (λ t. t ≡ self.now) }
    {
        Ok(AckGroup {
            story: self.story.try_clone()?,
            item: self.item.try_clone()?,
            obj: self.obj.try_clone()?,
            channel: copied(&self.channel)?,
            status: self.status.try_clone()?,
        })
    }
}
