//! Fields with their tags.
ghost use Rattle.std.specs.Prelude.{◌≡◌, [], ◌∷◌, ◌++◌, OnOk};
ghost use Rattle.std.specs.Fmt.{decimal};
ghost use Rattle.mos_fields.specs.Characters.{units_of};
ghost use Rattle.mos_fields.specs.Escapes.{escaped};
ghost use Rattle.mos_fields.specs.Fields.{name_of};
ghost use Rattle.mos_fields.specs.Values.{air_text, obj_type_text, time_text};
ghost use Rattle.mos_values.specs.Parts.{maybe_as, must, raws};
ghost use Rattle.mos_values.specs.Pieces.{piece_events, pieces_events};
ghost use Rattle.mos_values.specs.Views.{ack_status_text};
ghost use Rattle.mos_writer.specs.Encoded.{encoded, end_bytes, in_bytes, start_bytes, start_with_bytes, word_bytes};

use crate::bytes::{push_ascii, push_escaped, push_units};
use crate::values::{ack_status_word, air_word, obj_type_word, push_decimal, push_time};
use mos_fields::{Air, Field, Id, MosTime, NoMemory, ObjType, OptId, Slug, Text, Unread};
use mos_values::{AckStatus, Piece};

/// Appends the characters of a text in ASCII.
pub fn push_word(out: &mut Vec<u8>, word: &str) -> Result<(), NoMemory>
    ensures { OnOk result (out.new.items ≡ out.old.items ++ in_bytes word.now) }
{
    push_ascii(out, word.as_bytes())
}

/// Appends a start tag without attributes.
pub fn push_start(out: &mut Vec<u8>, name: &str) -> Result<(), NoMemory>
    ensures { OnOk result (out.new.items ≡ out.old.items ++ start_bytes name.now) }
{
    push_ascii(out, b"<")?;
    push_word(out, name)?;
    push_ascii(out, b">")?;
    Ok(())
}

/// Appends an end tag.
pub fn push_end(out: &mut Vec<u8>, name: &str) -> Result<(), NoMemory>
    ensures { OnOk result (out.new.items ≡ out.old.items ++ end_bytes name.now) }
{
    push_ascii(out, b"</")?;
    push_word(out, name)?;
    push_ascii(out, b">")?;
    Ok(())
}

fn push_front(out: &mut Vec<u8>, name: &str) -> Result<(), NoMemory>
    ensures { OnOk result (out.new.items ≡ out.old.items ++ in_bytes (60 ∷ name.now)) }
{
    push_ascii(out, b"<")?;
    push_word(out, name)?;
    Ok(())
}

fn push_attribute(out: &mut Vec<u8>, name: &str) -> Result<(), NoMemory>
    ensures { OnOk result (out.new.items ≡ out.old.items ++ in_bytes (32 ∷ (name.now ++ 61 ∷ 34 ∷ []))) }
{
    push_ascii(out, b" ")?;
    push_word(out, name)?;
    push_ascii(out, b"=\"")?;
    Ok(())
}

/// Appends a start tag with one attribute, whose value is in ASCII.
pub fn push_start_with(
    out: &mut Vec<u8>,
    name: &str,
    attribute: &str,
    value: &str,
) -> Result<(), NoMemory>
    ensures { OnOk result (out.new.items ≡ out.old.items ++ start_with_bytes name.now attribute.now value.now) }
{
    push_front(out, name)?;
    push_attribute(out, attribute)?;
    push_word(out, value)?;
    push_ascii(out, b"\">")?;
    Ok(())
}

/// Appends the start tag of a field.
pub fn open(out: &mut Vec<u8>, field: Field) -> Result<(), NoMemory>
    ensures { OnOk result (out.new.items ≡ out.old.items ++ start_bytes (name_of field)) }
{
    push_start(out, field.name())
}

/// Appends the end tag of a field.
pub fn close(out: &mut Vec<u8>, field: Field) -> Result<(), NoMemory>
    ensures { OnOk result (out.new.items ≡ out.old.items ++ end_bytes (name_of field)) }
{
    push_end(out, field.name())
}

fn push_text(out: &mut Vec<u8>, text: &Text) -> Result<(), NoMemory>
    ensures { OnOk result (out.new.items ≡ out.old.items ++ in_bytes (escaped (units_of text.now))) }
{
    push_escaped(out, text.units())
}

/// Appends a field with a text.
pub fn write_text(out: &mut Vec<u8>, field: Field, text: &Text) -> Result<(), NoMemory>
    ensures { OnOk result (out.new.items ≡ out.old.items ++ encoded (must field text.now)) }
{
    open(out, field)?;
    push_text(out, text)?;
    close(out, field)?;
    Ok(())
}

/// Appends a field with an identifier.
pub fn write_id(out: &mut Vec<u8>, field: Field, id: &Id) -> Result<(), NoMemory>
    ensures { OnOk result (out.new.items ≡ out.old.items ++ encoded (must field id.now)) }
{
    write_text(out, field, id.text())
}

/// Appends a field with an identifier that may be empty.
pub fn write_opt_id(out: &mut Vec<u8>, field: Field, id: &OptId) -> Result<(), NoMemory>
    ensures { OnOk result (out.new.items ≡ out.old.items ++ encoded (must field id.now)) }
{
    write_text(out, field, id.text())
}

/// Appends a field with a slug.
pub fn write_slug(out: &mut Vec<u8>, field: Field, slug: &Slug) -> Result<(), NoMemory>
    ensures { OnOk result (out.new.items ≡ out.old.items ++ encoded (must field slug.now)) }
{
    write_text(out, field, slug.text())
}

/// Appends a field with a number.
pub fn write_number(out: &mut Vec<u8>, field: Field, n: u32) -> Result<(), NoMemory>
    ensures { OnOk result (out.new.items ≡ out.old.items ++ encoded (must field (decimal n))) }
{
    open(out, field)?;
    push_decimal(out, n)?;
    close(out, field)?;
    Ok(())
}

/// Appends a field with a time.
pub fn write_time(out: &mut Vec<u8>, field: Field, time: &MosTime) -> Result<(), NoMemory>
    ensures { OnOk result (out.new.items ≡ out.old.items ++ encoded (must field (time_text time.now))) }
{
    open(out, field)?;
    push_time(out, time)?;
    close(out, field)?;
    Ok(())
}

#[tactic(auto, using(crate::proofs::EncodedLemmas::appends_nothing), unfolding(mos_values::specs::Parts::maybe_as))]
fn write_optional_time(
    out: &mut Vec<u8>,
    field: Field,
    time: &Option<MosTime>,
) -> Result<(), NoMemory>
    ensures { OnOk result (out.new.items ≡ out.old.items ++ encoded (maybe_as time_text field time.now)) }
{
    match *time {
        None => Ok(()),
        Some(time) => write_time(out, field, &time),
    }
}

/// Appends a field with a word.
pub fn write_word(out: &mut Vec<u8>, field: Field, word: &str) -> Result<(), NoMemory>
    ensures { OnOk result (out.new.items ≡ out.old.items ++ word_bytes (name_of field) word.now) }
{
    open(out, field)?;
    push_word(out, word)?;
    close(out, field)?;
    Ok(())
}

/// Appends a field with an air status.
pub fn write_air(out: &mut Vec<u8>, field: Field, air: Air) -> Result<(), NoMemory>
    ensures { OnOk result (out.new.items ≡ out.old.items ++ encoded (must field (air_text air))) }
{
    write_word(out, field, air_word(air))
}

fn write_obj_type(out: &mut Vec<u8>, field: Field, obj_type: ObjType) -> Result<(), NoMemory>
    ensures { OnOk result (out.new.items ≡ out.old.items ++ encoded (must field (obj_type_text obj_type))) }
{
    write_word(out, field, obj_type_word(obj_type))
}

fn write_ack_status(out: &mut Vec<u8>, field: Field, status: AckStatus) -> Result<(), NoMemory>
    ensures { OnOk result (out.new.items ≡ out.old.items ++ encoded (must field (ack_status_text status))) }
{
    write_word(out, field, ack_status_word(status))
}

/// Appends a raw element, as it was written.
pub fn write_raw(out: &mut Vec<u8>, raw: &Unread) -> Result<(), NoMemory>
    ensures { OnOk result (out.new.items ≡ out.old.items ++ in_bytes (units_of raw.now)) }
{
    push_units(out, raw.units())
}

fn write_raws(out: &mut Vec<u8>, field: Field, list: &[Unread]) -> Result<(), NoMemory>
    ensures { OnOk result (out.new.items ≡ out.old.items ++ encoded (raws field list.now)) }
{
    for raw in list {
        write_raw(out, raw)?;
    }
    Ok(())
}

#[tactic(auto, using(crate::proofs::EncodedLemmas::appends_nothing, crate::proofs::EncodedLemmas::must_raw_is), unfolding(mos_values::specs::Parts::maybe, mos_values::specs::Parts::maybe_as, mos_values::specs::Parts::maybe_raw))]
fn write_piece(out: &mut Vec<u8>, piece: &Piece) -> Result<(), NoMemory>
    ensures { OnOk result (out.new.items ≡ out.old.items ++ encoded (piece_events piece.now)) }
{
    match piece {
        Piece::Text(field, text) => write_text(out, *field, text),
        Piece::OptionalText(field, text) => match text {
            None => Ok(()),
            Some(text) => write_text(out, *field, text),
        },
        Piece::OptionalSlug(field, slug) => match slug {
            None => Ok(()),
            Some(slug) => write_text(out, *field, slug.text()),
        },
        Piece::OptionalOptId(field, id) => match id {
            None => Ok(()),
            Some(id) => write_text(out, *field, id.text()),
        },
        Piece::Samples(field, samples) => write_number(out, *field, samples.count()),
        Piece::OptionalSamples(field, samples) => match samples {
            None => Ok(()),
            Some(samples) => write_number(out, *field, samples.count()),
        },
        Piece::OptionalRev(field, rev) => match rev {
            None => Ok(()),
            Some(rev) => write_number(out, *field, u32::from(rev.number())),
        },
        Piece::Time(field, time) => write_time(out, *field, time),
        Piece::OptionalTime(field, time) => write_optional_time(out, *field, time),
        Piece::Air(field, air) => write_air(out, *field, *air),
        Piece::OptionalAir(field, air) => match air {
            None => Ok(()),
            Some(air) => write_air(out, *field, *air),
        },
        Piece::OptionalObjType(field, obj_type) => match obj_type {
            None => Ok(()),
            Some(obj_type) => write_obj_type(out, *field, *obj_type),
        },
        Piece::AckStatus(field, status) => write_ack_status(out, *field, *status),
        Piece::Raw(_, raw) => write_raw(out, raw),
        Piece::OptionalRaw(_, raw) => match raw {
            None => Ok(()),
            Some(raw) => write_raw(out, raw),
        },
        Piece::Raws(field, list) => write_raws(out, *field, list),
    }
}

/// Appends the fields of a record.
pub fn write_pieces(out: &mut Vec<u8>, pieces: &[Piece]) -> Result<(), NoMemory>
    ensures { OnOk result (out.new.items ≡ out.old.items ++ encoded (pieces_events pieces.now)) }
{
    for piece in pieces {
        write_piece(out, piece)?;
    }
    Ok(())
}
