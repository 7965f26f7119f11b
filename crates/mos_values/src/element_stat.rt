//! Statuses of running orders, stories and items.
ghost use Rattle.std.specs.Prelude.{◌≡◌, IfOk};

use crate::copies::triple;
use mos_fields::{Id, Level, MosTime, NoMemory, OptId, Text, pair_ok};

/// The status of a running order, of a story or of an item, as roElementStat carries it.
#[derive(Drop)]
pub struct ElementStat {
    /// the attribute `element`: what the status is of
    pub level: Level,
    /// roID
    pub ro: Id,
    /// storyID
    pub story: Option<OptId>,
    /// itemID
    pub item: Option<OptId>,
    /// objID
    pub obj: Option<OptId>,
    /// itemChannel
    pub channel: Option<Text>,
    /// status
    pub status: Text,
    /// time
    pub time: MosTime,
}

impl ElementStat {
    /// The same status again, in memory of its own. The only error is that memory runs out.
    pub fn try_clone(&self) -> Result<Self, NoMemory>
        ensures { IfOk result (λ t. t ≡ self.now) }
    {
        let ((ro, story, item), (obj, channel, status)) = pair_ok(
            triple(&self.ro, &self.story, &self.item),
            triple(&self.obj, &self.channel, &self.status),
        )?;
        Ok(ElementStat {
            ro,
            story,
            item,
            obj,
            channel,
            status,
            level: self.level,
            time: self.time,
        })
    }
}
