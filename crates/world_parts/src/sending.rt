//! What the server's packets are about.
ghost use Rattle.std.specs.Prelude.{◌≡◌};
ghost use Rattle.world_parts.specs.Sending.{carried_tag};

use crate::packet::PacketTag;
use machine_answers::Tag;

/// The tag of a packet that an end sends with this one.
pub fn packet_tag(tag: Tag) -> PacketTag
    ensures { result ≡ carried_tag tag }
{
    match tag {
        Tag::Edit { ro, k } => PacketTag::Entry { ro, k },
        Tag::Again { ro, m } => PacketTag::Again { ro, m },
        Tag::Script { ro, k, m } => PacketTag::Script { ro, k, m },
        Tag::Ask { ro: _ } => PacketTag::Untagged,
        Tag::AskAll => PacketTag::Untagged,
        Tag::Beat => PacketTag::Untagged,
    }
}
