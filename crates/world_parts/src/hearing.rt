//! What the server's answers are about.
ghost use Rattle.std.specs.Prelude.{◌≡◌, IfOk};
ghost use Rattle.mos_edits.specs.Entries.{Entry, entry_count};
ghost use Rattle.mos_edits.specs.Texts.{same_id};
ghost use Rattle.mos_machines.specs.Messages.{Status, status_text};
ghost use Rattle.world_parts.specs.Hearing.{answer_tag as answer_tag_of, is_put_off as is_put_off_of};

use crate::packet::PacketTag;
use mos_fields::{NoMemory, Slug};
use mos_values::Message;
use ncs_core::Ncs;
use rundown_log::MemKeeper;

/// NOT NOW, in code units.
const NOT_NOW: [u16; 7] = [78, 79, 84, 32, 78, 79, 87];

/// Whether a status is `NOT NOW`.
fn is_not_now(status: &Slug) -> bool
    ensures { result ≡ same_id status.now (status_text Status.NotNow) }
{
    status.text().units() == NOT_NOW.as_slice()
}

/// Whether an answer puts a request off.
fn is_put_off(answer: &Message) -> bool
    ensures { result ≡ is_put_off_of answer.now }
{
    match answer {
        Message::RoAck(ack) => is_not_now(&ack.status),
        _ => false,
    }
}

/// What the answer to a request is about: an order after all its entries, where it isn't put off.
pub fn answer_tag(
    ncs: &Ncs<MemKeeper>,
    request: &Message,
    answer: &Message,
) -> Result<PacketTag, NoMemory>
    ensures { IfOk result (λ t. t ≡ answer_tag_of ncs.now.server.journal request.now answer.now) }
{
    match request {
        Message::RoReq(ro) if !is_put_off(answer) => Ok(PacketTag::List {
            ro: ro.try_clone()?,
            m: ncs.entries(ro),
        }),
        _ => Ok(PacketTag::Untagged),
    }
}
