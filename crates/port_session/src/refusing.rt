//! Messages for another end.
ghost use Rattle.std.specs.Prelude.{◌≡◌, ◌≤◌, Some, IfOk};
ghost use Rattle.mos_codec.specs.Codec.{encoding};
ghost use Rattle.mos_values.specs.Names.{ack, message_obj as message_obj_of, message_rev as message_rev_of, message_ro as message_ro_of};
ghost use Rattle.mos_values.specs.declared.message.Message.TheVariants as carried;
ghost use Rattle.mos_values.specs.declared.mos_ack.AckStatus.TheVariants.{Nack};
ghost use Rattle.port_session.specs.Messages.{not_for_me as not_for_me_text, refusal, reply};
ghost use Rattle.port_session.specs.Writing.{WriteCame};

use crate::end::End;
use crate::writing::write_reply;
use mos_fields::{NoMemory, Slug, let_go, pair_ok, triple_ok};
use mos_io::Sink;
use mos_values::{
    AckGroups, AckStatus, Envelope, Message, MosAck, RoAck, message_obj, message_rev, message_ro,
};
use port_events::Side;
use std::alloc::Global;

fn not_for_me(alloc: Global) -> Result<Slug, NoMemory>
    ensures { IfOk result (λ t. t ≡ not_for_me_text) }
{
    match Slug::try_new(alloc, &['N', 'O', 'T', ' ', 'F', 'O', 'R', ' ', 'M', 'E']) {
        Ok(text) => Ok(text),
        Err(_) => Err(NoMemory),
    }
}

// By a roAck.
fn refused_order(alloc: Global, message: &Message) -> Result<Message, NoMemory>
    ensures { IfOk result (λ m. m ≡ ack (message_ro_of message.now) not_for_me_text) }
{
    let (ro, status) = pair_ok(message_ro(alloc, message), not_for_me(alloc))?;
    Ok(Message::RoAck(RoAck {
        ro,
        status,
        groups: AckGroups::new(alloc),
    }))
}

// By a mosAck.
fn refused_object(alloc: Global, message: &Message) -> Result<Message, NoMemory>
    ensures { IfOk result (λ m. m ≡ carried.MosAck (record { obj = message_obj_of message.now; rev = Some (message_rev_of message.now); status = Nack; description = Some not_for_me_text })) }
{
    let (obj, rev, text) = triple_ok(
        message_obj(alloc, message),
        message_rev(message),
        not_for_me(alloc),
    )?;
    Ok(Message::MosAck(MosAck {
        obj,
        rev: Some(rev),
        status: AckStatus::Nack,
        description: Some(text.into_text()),
    }))
}

// `NOT FOR ME`
fn refused(alloc: Global, side: Side, message: &Message) -> Result<Message, NoMemory>
    ensures { IfOk result (λ m. m ≡ refusal side message.now) }
{
    match side {
        Side::Upper | Side::Editor => refused_order(alloc, message),
        Side::Lower => refused_object(alloc, message),
    }
}

/// Writes `NOT FOR ME` in the envelope of this message, in one write.
pub(crate) fn write_refusal<K: Sink>(
    alloc: Global,
    sink: &mut K,
    side: Side,
    e: &Envelope,
) -> Result<(), End>
    ensures wrote { WriteCame (K.written sink.old) (K.written sink.new) (K.faults sink.old) (K.faults sink.new) (encoding (reply e.now (refusal side e.now.message))) result }
    ensures rises { K.faults sink.old ≤ K.faults sink.new }
{
    match refused(alloc, side, &e.message) {
        Ok(message) => {
            let written = write_reply(alloc, sink, e, &message);
            let_go(message);
            written
        }
        Err(_) => Err(End::NoMemory),
    }
}
