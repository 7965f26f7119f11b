//! Events of a world.
ghost use Rattle.std.specs.Prelude.{◌≡◌, IfOk};

use crate::direction::Direction;
use crate::pairing_event::PairingEvent;
use mos_edits::Edit;
use mos_fields::NoMemory;
use mos_values::TryClone;

/// An event of a world of one server and its devices, which are numbered from 1.
#[derive(Drop)]
pub enum WorldEvent {
    /// An editor commands an edit.
    Command(Edit),
    /// An event at device `d`. It isn't possible where the world has no such device.
    AtDevice { d: u32, event: PairingEvent },
    /// A direction of connection `c` keeps its first `k` unread messages; the rest and all later ones are lost.
    Lose { c: u64, way: Direction, k: u64 },
    /// The next append to the server's journal fails.
    FailNext,
    /// The server restarts. An entry whose append failed since the last restart stands exactly where `kept`.
    Restart { kept: bool },
}

impl WorldEvent {
    /// The same event again, in memory of its own. The only error is that memory runs out.
    pub fn try_clone(&self) -> Result<Self, NoMemory>
        ensures { IfOk result (λ t. t ≡ self.now) }
    {
        Ok(match self {
            WorldEvent::Command(edit) => WorldEvent::Command(edit.try_clone()?),
            WorldEvent::AtDevice { d, event } => WorldEvent::AtDevice {
                d: *d,
                event: event.try_clone()?,
            },
            WorldEvent::Lose { c, way, k } => WorldEvent::Lose {
                c: *c,
                way: *way,
                k: *k,
            },
            WorldEvent::FailNext => WorldEvent::FailNext,
            WorldEvent::Restart { kept } => WorldEvent::Restart { kept: *kept },
        })
    }
}

impl TryClone for WorldEvent {
    fn try_clone(&self) -> Result<Self, NoMemory> {
        self.try_clone()
    }
}
