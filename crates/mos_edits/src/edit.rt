//! Edits of running orders.
ghost use Rattle.std.specs.Prelude.{◌≡◌, IfOk};

use mos_fields::{Air, Id, NoMemory};
use mos_values::{Action, Boxed, HeaderPatch, OrderBody, StorySend};

/// An edit of a running order: what an editor commands, and what the server sends on to devices.
#[derive(Drop)]
pub enum Edit {
    /// roCreate: the order comes to be.
    Create(Boxed<OrderBody>),
    /// roReplace: the order is this one from now on.
    Replace(Boxed<OrderBody>),
    /// roDelete: the order is removed.
    Delete(Id),
    /// roMetadataReplace: the fields given replace those of the header.
    Metadata(Boxed<HeaderPatch>),
    /// roElementAction: stories or items are put in, replaced, moved, removed or exchanged.
    Act { ro: Id, action: Action },
    /// roReadyToAir: the order is released, or no longer.
    Air { ro: Id, air: Air },
    /// roStorySend: the script joins its story, in place of a former one.
    Script(Boxed<StorySend>),
}

impl Edit {
    /// The same edit again, in memory of its own. The only error is that memory runs out.
    pub fn try_clone(&self) -> Result<Self, NoMemory>
        ensures { IfOk result (λ t. t ≡ self.now) }
    {
        Ok(match self {
            Edit::Create(body) => Edit::Create(body.try_clone()?),
            Edit::Replace(body) => Edit::Replace(body.try_clone()?),
            Edit::Delete(ro) => Edit::Delete(ro.try_clone()?),
            Edit::Metadata(patch) => Edit::Metadata(patch.try_clone()?),
            Edit::Act { ro, action } => Edit::Act {
                ro: ro.try_clone()?,
                action: action.try_clone()?,
            },
            Edit::Air { ro, air } => Edit::Air {
                ro: ro.try_clone()?,
                air: *air,
            },
            Edit::Script(script) => Edit::Script(script.try_clone()?),
        })
    }
}
