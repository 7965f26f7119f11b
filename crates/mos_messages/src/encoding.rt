//! Encoding.
ghost use Rattle.std.specs.Prelude.{◌≡◌, ◌++◌, OnOk, IfOk};
ghost use Rattle.mos_fields.specs.Characters.{bytes_of, units_of};
ghost use Rattle.mos_fields.specs.declared.field.Field.TheVariants as fields;
ghost use Rattle.mos_messages.specs.Names.{names_events};
ghost use Rattle.mos_messages.specs.Others.{other_events};
ghost use Rattle.mos_tables.specs.Canonical.{canonical};
ghost use Rattle.mos_values.specs.MessageViews.{envelope_events, message_events};
ghost use Rattle.mos_values.specs.Parts.{maybe, must};
ghost use Rattle.mos_values.specs.Pieces.{pieces_events};
ghost use Rattle.mos_writer.specs.Encoded.{encoded};

use mos_fields::{Field, NoMemory};
use mos_object_msgs::append_object;
use mos_order_msgs::append_order;
use mos_values::{Envelope, Message, Piece};
use mos_writer::{push_end, push_start, write_pieces, write_raw};
use std::alloc::Global;

#[tactic(auto, using(mos_writer::proofs::EncodedLemmas::appends_nothing, mos_writer::proofs::EncodedLemmas::must_raw_is), unfolding(mos_values::specs::MessageViews::message_events))]
fn write_other(out: &mut Vec<u8>, m: &Message) -> Result<(), NoMemory>
    ensures { OnOk result (out.new.items ≡ out.old.items ++ encoded (other_events m.now)) }
{
    match m {
        Message::Other { name: _, raw } => write_raw(out, raw),
        _ => Ok(()),
    }
}

fn write_message(out: &mut Vec<u8>, m: &Message) -> Result<(), NoMemory>
    ensures { OnOk result (out.new.items ≡ out.old.items ++ encoded (message_events m.now)) }
{
    let _ = append_order(m, out)?;
    let _ = append_object(m, out)?;
    write_other(out, m)?;
    Ok(())
}

#[tactic(auto, unfolding(crate::specs::Names::names_events, mos_values::specs::Pieces::pieces_events))]
fn name_pieces(e: &Envelope) -> [Piece<'_>; 3]
    ensures { pieces_events result ≡ names_events e.now }
{
    [
        Piece::Text(Field::MosID, e.mos.text()),
        Piece::Text(Field::NcsID, e.ncs.text()),
        Piece::OptionalOptId(Field::MessageID, &e.message_id),
    ]
}

fn write_names(out: &mut Vec<u8>, e: &Envelope) -> Result<(), NoMemory>
    ensures { OnOk result (out.new.items ≡ out.old.items ++ encoded (must fields.MosID e.now.mos ++ must fields.NcsID e.now.ncs ++ maybe fields.MessageID e.now.message_id)) }
{
    write_pieces(out, &name_pieces(e))?;
    Ok(())
}

fn write_envelope(out: &mut Vec<u8>, e: &Envelope, m: &Message) -> Result<(), NoMemory>
    ensures { OnOk result (out.new.items ≡ out.old.items ++ encoded (envelope_events (record e.now { message = m.now }))) }
{
    push_start(out, "mos")?;
    write_names(out, e)?;
    write_message(out, m)?;
    push_end(out, "mos")?;
    Ok(())
}

/// Most messages have so many bytes or fewer, which are taken at once.
const SMALL_MESSAGE: usize = 512;

/// The canonical encoding of an envelope with this message in the place of its own, as an answer to it is written: the names
/// and the messageID are the envelope's. The only error is that memory runs out.
#[tactic(auto, unfolding(mos_writer::specs::Encoded::encoded))]
pub fn encode_with(alloc: Global, e: &Envelope, m: &Message) -> Result<Vec<u8>, NoMemory>
    ensures { IfOk result (λ v. v.items ≡ bytes_of (units_of (canonical (envelope_events (record e.now { message = m.now }))))) }
{
    let mut out = Vec::with_capacity(alloc, SMALL_MESSAGE)?;
    write_envelope(&mut out, e, m)?;
    Ok(out)
}

/// The canonical encoding of an envelope: UTF-16 with the high byte first, no white space between elements, the fields
/// in the order of their tables, absent ones left out. The only error is that memory runs out.
pub fn encode(alloc: Global, e: &Envelope) -> Result<Vec<u8>, NoMemory>
    ensures { IfOk result (λ v. v.items ≡ bytes_of (units_of (canonical (envelope_events e.now)))) }
{
    encode_with(alloc, e, &e.message)
}
