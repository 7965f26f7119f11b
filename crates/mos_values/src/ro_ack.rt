//! Acknowledgements of running order messages.
ghost use Rattle.std.specs.Prelude.{◌≡◌, IfOk};

use crate::AckGroups;
use mos_fields::{NoMemory, OptId, Slug};

/// The answer to a running order message, as roAck carries it.
#[derive(Drop)]
pub struct RoAck {
    /// roID of the order that was spoken of, empty where there is none
    pub ro: OptId,
    /// roStatus, `OK` or why the message was refused
    pub status: Slug,
    /// the statuses of stories and items, in order
    pub groups: AckGroups,
}

impl RoAck {
    /// The same answer again, in memory of its own. The only error is that memory runs out.
    pub fn try_clone(&self) -> Result<Self, NoMemory>
        ensures { IfOk result (λ t. t ≡ self.now) }
    {
        Ok(RoAck {
            ro: self.ro.try_clone()?,
            status: self.status.try_clone()?,
            groups: self.groups.try_clone()?,
        })
    }
}
