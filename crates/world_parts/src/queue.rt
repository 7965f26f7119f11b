//! The messages that are unread in one direction.
ghost use Rattle.std.specs.Prelude.{◌≡◌, [], ◌∷◌, IfNone, IfSome, OnOk};
ghost use Rattle.world_parts.specs.Places.{with_written};

use crate::packet::EncodedPacket;
use mos_fields::{NoMemory, let_go};
use std::collections::VecDeque;

/// Takes the first packet.
pub fn take_first(queue: &mut VecDeque<EncodedPacket>) -> Option<EncodedPacket>
    ensures none { IfNone result ((queue.new ≡ queue.old) × (queue.old.items ≡ [])) }
    ensures some { IfSome result (λ p. queue.old.items ≡ p ∷ queue.new.items) }
{
    if queue.is_empty() {
        return None;
    }
    queue.pop_front()
}

/// Writes a packet at the end, where none is lost.
pub fn write_last(
    queue: &mut VecDeque<EncodedPacket>,
    lost: bool,
    packet: EncodedPacket,
) -> Result<(), NoMemory>
    ensures { OnOk result (queue.new.items ≡ with_written lost packet queue.old.items) }
{
    if lost {
        let_go(packet);
        return Ok(());
    }
    match queue.push_back(packet) {
        Ok(()) => Ok(()),
        Err(full) => {
            let_go(full);
            Err(NoMemory)
        }
    }
}
