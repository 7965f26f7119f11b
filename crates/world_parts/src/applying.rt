//! How many entries of each order a device has applied.
ghost use Rattle.std.specs.Prelude.{◌≡◌, ◌+◌, ◌||◌, OnOk, Some, None, IfOk};
ghost use Rattle.mos_machines.specs.Device.{GateState, Decks, gate_read, is_in};
ghost use Rattle.mos_machines.specs.Messages.{Packet as Said, Status, Step as MachineStep, Message as SaidMessage, status_text};
ghost use Rattle.mos_machines.specs.Tables.{gate_of, look};
ghost use Rattle.mos_machines.specs.Values.{message_of, IsWritten};
ghost use Rattle.mos_edits.specs.Texts.{same_id, set_order};
ghost use Rattle.world_laws.specs.World.{applied_got, applied_read};
ghost use Rattle.world_parts.specs.Matching.{Carries};
ghost use Rattle.world_parts.specs.Told.{tag_of, applies as applies_of, applies_by as applies_by_of, applies_with as applies_with_of, whole_edit as whole_edit_of};
ghost use Rattle.world_parts.specs.Applying.{in_step_for, applied_where};

use crate::packet::{Packet, PacketTag};
use gateway_core::Gate;
use mos_fields::{Id, NoMemory, Slug};
use mos_values::Message;
use order_table::OrderTable;

/// Whether the device is in step for the order whose entry it is.
pub fn is_in_step(gate: &Gate, tag: &PacketTag) -> bool
    ensures { result ≡ in_step_for (gate_of gate.now) tag.now }
{
    match tag {
        PacketTag::Entry { ro, k: _ } => gate.is_in_step(ro),
        _ => false,
    }
}

/// Whether a message is a whole-order edit, where it is an edit.
fn whole_edit(message: &Message) -> Option<bool>
    ensures { result ≡ whole_edit_of message.now }
{
    match message {
        Message::RoCreate(_) => Some(true),
        Message::RoReplace(_) => Some(true),
        Message::RoDelete(_) => Some(true),
        Message::RoMetadataReplace(_) => Some(false),
        Message::RoElementAction { ro: _, action: _ } => Some(false),
        Message::RoReadyToAir { ro: _, air: _ } => Some(false),
        Message::RoStorySend(_) => Some(false),
        _ => None,
    }
}

/// OK, in code units.
const OKAY: [u16; 2] = [79, 75];

/// NO DECK, in code units.
const NO_DECK: [u16; 7] = [78, 79, 32, 68, 69, 67, 75];

/// Whether a status is `OK`.
fn is_okay(status: &Slug) -> bool
    ensures { result ≡ same_id status.now (status_text Status.Okay) }
{
    status.text().units() == OKAY.as_slice()
}

/// Whether a status is `NO DECK`.
fn is_no_deck(status: &Slug) -> bool
    ensures { result ≡ same_id status.now (status_text Status.NoDeck) }
{
    status.text().units() == NO_DECK.as_slice()
}

/// Whether a roAck with this status says that the entry was applied.
fn applies_by(status: &Slug, in_step: bool, whole: bool) -> bool
    ensures { result ≡ applies_by_of (same_id status.now (status_text Status.Okay)) (same_id status.now (status_text Status.NoDeck)) in_step whole }
{
    if is_okay(status) {
        in_step || whole
    } else {
        is_no_deck(status) && in_step
    }
}

/// Whether the answer says that the message, which is an entry, was applied.
fn applies(in_step: bool, message: &Message, answer: &Message) -> bool
    ensures { result ≡ applies_of in_step message.now answer.now }
{
    match (whole_edit(message), answer) {
        (Some(whole), Message::RoAck(ack)) => applies_by(&ack.status, in_step, whole),
        _ => false,
    }
}

/// Entry `k` of an order was applied.
fn apply_entry(applied: &mut OrderTable<u64>, ro: &Id, k: u64) -> Result<(), NoMemory>
    ensures { OnOk result (look 0 applied.new ≡ set_order (look 0 applied.old) ro.now (k + 1)) }
{
    match k.checked_add(1) {
        Some(count) => applied.put(ro, count),
        None => Err(NoMemory),
    }
}

/// What is applied once an entry was applied or wasn't.
fn apply_where(
    applied: &mut OrderTable<u64>,
    tag: &PacketTag,
    is_applied: bool,
) -> Result<(), NoMemory>
    ensures { OnOk result (look 0 applied.new ≡ applied_where (look 0 applied.old) tag.now is_applied) }
{
    match tag {
        PacketTag::Entry { ro, k } if is_applied => apply_entry(applied, ro, *k),
        _ => Ok(()),
    }
}

/// What is applied once a device read a packet and answered so; `in_step` is whether it was in step for the order of an entry.
pub fn apply_read(
    applied: &mut OrderTable<u64>,
    in_step: bool,
    packet: &Packet,
    answer: &Message,
) -> Result<(), NoMemory>
    ensures { OnOk result ((g : GateState) (q : Said) (a : SaidMessage) → in_step ≡ in_step_for g packet.now.tag → Carries packet.now q → IsWritten a → answer.now ≡ message_of a → look 0 applied.new ≡ applied_read g (look 0 applied.old) q.tag q.message a) }
{
    let is_applied = applies(in_step, &packet.message, answer);
    apply_where(applied, &packet.tag, is_applied)
}

/// What is applied once a device took an answer with this tag.
pub fn apply_list(applied: &mut OrderTable<u64>, tag: &PacketTag) -> Result<(), NoMemory>
    ensures { OnOk result (look 0 applied.new ≡ applied_got (look 0 applied.old) (tag_of tag.now) MachineStep.Taken) }
{
    match tag {
        PacketTag::List { ro, m } => applied.put(ro, *m),
        _ => Ok(()),
    }
}
