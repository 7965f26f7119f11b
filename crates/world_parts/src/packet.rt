//! Messages on their way, with what no byte of them carries.
ghost use Rattle.std.specs.Prelude.{◌≡◌, IfOk};
ghost use Rattle.mos_machines.specs.Messages.{Packet as Said};
ghost use Rattle.world_scripts.specs.Outcomes.{outcome_of};
ghost use Rattle.world_laws.specs.Outcomes.{Outcome as Outcomes, written};
ghost use Rattle.world_parts.specs.Matching.{Carries};
ghost use Rattle.world_parts.specs.Told.{told as told_of, told_list as told_list_of, told_message as told_message_of};

use mos_fields::{Id, NoMemory};
use mos_values::{Message, RoAck};
use world_scripts::Outcome;

/// What a message is about, which none of its bytes carries.
#[derive(Drop)]
pub enum PacketTag {
    /// Nothing.
    Untagged,
    /// Entry `k` of an order, from 0.
    Entry { ro: Id, k: u64 },
    /// The READY before entry `m` of an order, sent again.
    Again { ro: Id, m: u64 },
    /// The script of entry `k` of an order, sent again behind a list of `m` entries.
    Script { ro: Id, k: u64, m: u64 },
    /// An order after `m` entries, or that there is none.
    List { ro: Id, m: u64 },
}

/// A message in the hand of an end that wrote it or read it.
#[derive(Drop)]
pub struct Packet {
    pub message: Message,
    pub tag: PacketTag,
}

/// A message on its way from one end of a connection to the other: its bytes, and the tag, which goes beside them.
#[derive(Drop)]
pub struct EncodedPacket {
    pub bytes: Vec<u8>,
    pub tag: PacketTag,
}

/// What is told of a roAck.
fn told_ack(ack: &RoAck) -> Result<Outcome, NoMemory>
    ensures { IfOk result (λ o. outcome_of o ≡ Outcomes.Ack ack.now.ro ack.now.status) }
{
    Ok(Outcome::Ack {
        ro: ack.ro.try_clone()?,
        text: ack.status.text().try_clone()?,
    })
}

/// What is told of a message by itself.
fn told_message(message: &Message) -> Result<Outcome, NoMemory>
    ensures { IfOk result (λ o. outcome_of o ≡ told_message_of message.now) }
{
    match message {
        Message::Heartbeat(_) => Ok(Outcome::Heartbeat),
        Message::RoAck(ack) => told_ack(ack),
        Message::RoReq(ro) => Ok(Outcome::Ask {
            ro: ro.try_clone()?,
        }),
        Message::RoReqAll => Ok(Outcome::AskAll),
        Message::RoListAll(headers) => Ok(Outcome::ListAll {
            n: headers.len() as u64,
        }),
        _ => Ok(Outcome::Nothing),
    }
}

/// What is told of a list of an order, or of what is said in its place.
fn told_list(ro: &Id, m: u64, message: &Message) -> Result<Outcome, NoMemory>
    ensures { IfOk result (λ o. outcome_of o ≡ told_list_of ro.now m message.now) }
{
    match message {
        Message::RoList(_) => Ok(Outcome::List {
            ro: ro.try_clone()?,
            m,
        }),
        _ => told_message(message),
    }
}

/// What is told of a packet.
fn told_packet(tag: &PacketTag, message: &Message) -> Result<Outcome, NoMemory>
    ensures { IfOk result (λ o. outcome_of o ≡ told_of tag.now message.now) }
{
    match tag {
        PacketTag::Untagged => told_message(message),
        PacketTag::Entry { ro, k } => Ok(Outcome::Edit {
            ro: ro.try_clone()?,
            k: *k,
        }),
        PacketTag::Again { ro, m } => Ok(Outcome::Again {
            ro: ro.try_clone()?,
            m: *m,
        }),
        PacketTag::Script { ro, k, m } => Ok(Outcome::Script {
            ro: ro.try_clone()?,
            k: *k,
            m: *m,
        }),
        PacketTag::List { ro, m } => told_list(ro, *m, message),
    }
}

/// What is told of a packet that an end wrote.
pub fn told(packet: &Packet) -> Result<Outcome, NoMemory>
    ensures { IfOk result (λ o. (q : Said) → Carries packet.now q → outcome_of o ≡ written q.tag q.message) }
{
    told_packet(&packet.tag, &packet.message)
}
