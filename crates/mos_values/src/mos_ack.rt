//! Acknowledgements of media object messages.
ghost use Rattle.std.specs.Prelude.{◌≡◌, IfOk};

use crate::try_clone::copied;
use mos_fields::{NoMemory, OptId, Rev, Text};

/// Whether a message was taken.
#[derive(Clone, Copy, Debug, PartialEq, Eq)]
pub enum AckStatus {
    /// it was taken
    Ack,
    /// it was refused
    Nack,
}

/// The answer to a media object message, as mosAck carries it.
#[derive(Drop)]
pub struct MosAck {
    /// objID of the object that was spoken of, empty where there is none
    pub obj: OptId,
    /// objRev
    pub rev: Option<Rev>,
    /// status
    pub status: AckStatus,
    /// statusDescription
    pub description: Option<Text>,
}

impl MosAck {
    /// The same answer again, in memory of its own. The only error is that memory runs out.
    pub fn try_clone(&self) -> Result<Self, NoMemory>
        ensures { IfOk result (λ t. t ≡ self.now) }
    {
        Ok(MosAck {
            obj: self.obj.try_clone()?,
            rev: self.rev,
            status: self.status,
            description: copied(&self.description)?,
        })
    }
}
