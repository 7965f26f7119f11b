//! Counting the code units of canonical encodings. A number that would pass 2^64 - 1 is 2^64 - 1.
ghost use Rattle.std.specs.Prelude.{◌≡◌, ◌+◌, ◌*◌, ◌<◌, ◌≤◌, length};
ghost use Rattle.std.specs.Fmt.{decimal};
ghost use Rattle.mos_fields.specs.Characters.{units_of};
ghost use Rattle.mos_fields.specs.Escapes.{escaped, escaped_char};
ghost use Rattle.mos_fields.specs.Fields.{name_of};
ghost use Rattle.mos_fields.specs.Values.{air_text, millis_text, obj_type_text, time_text, zone_text};
ghost use Rattle.mos_values.specs.Parts.{maybe_as, must, raws};
ghost use Rattle.mos_values.specs.Pieces.{piece_events, pieces_events};
ghost use Rattle.mos_values.specs.Units.{capped, units_in};
ghost use Rattle.mos_values.specs.Views.{ack_status_text};

use crate::mos_ack::AckStatus;
use crate::piece::Piece;
use mos_fields::{Air, Field, MosTime, ObjType, Text, Unread, Zone};

/// The sum of two numbers.
pub fn plus(a: u64, b: u64) -> u64
    ensures { result ≡ capped (a + b) }
{
    a.saturating_add(b)
}

/// The code units of one, escaped.
fn escaped_unit(unit: u16) -> u64
    ensures { result ≡ length (escaped_char unit) }
{
    match unit {
        34 => 6,
        38 => 5,
        39 => 6,
        60 => 4,
        62 => 4,
        _ => 1,
    }
}

/// The code units of a text, escaped.
fn escaped_units(units: &[u16]) -> u64
    ensures { result ≡ capped (length (escaped units.now)) }
{
    let mut count = 0;
    for unit in units {
        count = plus(count, escaped_unit(*unit));
    }
    count
}

/// The code units of the two tags of a field.
fn tags_units(field: Field) -> u64
    ensures { result ≡ capped (2 * length (name_of field) + 5) }
{
    let name = field.name().len() as u64;
    plus(plus(name, name), 5)
}

/// A field with a text.
#[tactic(auto, using(crate::proofs::Counts::units_in_must))]
fn text_units(field: Field, text: &Text) -> u64
    ensures { result ≡ capped (units_in (must field text.now)) }
{
    plus(tags_units(field), escaped_units(text.units()))
}

/// The decimal digits of a number.
fn decimal_len(n: u32) -> u64
    ensures count { result ≡ length (decimal n) }
    ensures few { result ≤ 10 }
{
    if n < 10 { 1 } else { decimal_len(n / 10) + 1 }
}

/// A field with a number.
fn number_units(field: Field, n: u32) -> u64
    ensures { result ≡ capped (units_in (must field (decimal n))) }
{
    plus(tags_units(field), decimal_len(n))
}

/// The characters of a time.
fn time_len(time: &MosTime) -> u64
    ensures { result ≡ length (time_text time.now) }
{
    let millis = match time.millis {
        None => 0,
        Some(_) => 4,
    };
    let zone = match time.zone {
        Zone::None => 0,
        Zone::Z => 1,
        Zone::Plus { .. } => 6,
        Zone::Minus { .. } => 6,
    };
    19 + millis + zone
}

/// A field with a time.
fn time_units(field: Field, time: &MosTime) -> u64
    ensures { result ≡ capped (units_in (must field (time_text time.now))) }
{
    plus(tags_units(field), time_len(time))
}

/// A field with a time that may be absent.
#[tactic(auto, using(crate::proofs::Encoding::units_in_nil), unfolding(crate::specs::Parts::maybe_as))]
fn optional_time_units(field: Field, time: &Option<MosTime>) -> u64
    ensures { result ≡ capped (units_in (maybe_as time_text field time.now)) }
{
    match *time {
        None => 0,
        Some(time) => time_units(field, &time),
    }
}

/// The characters of the word of an air status.
fn air_len(air: Air) -> u64
    ensures { result ≡ length (air_text air) }
{
    match air {
        Air::Ready => 5,
        Air::NotReady => 9,
    }
}

/// A field with an air status.
fn air_units(field: Field, air: Air) -> u64
    ensures { result ≡ capped (units_in (must field (air_text air))) }
{
    plus(tags_units(field), air_len(air))
}

/// The characters of the word of an object's type.
fn obj_type_len(obj_type: ObjType) -> u64
    ensures { result ≡ length (obj_type_text obj_type) }
{
    match obj_type {
        ObjType::Still => 5,
        ObjType::Audio => 5,
        ObjType::Video => 5,
        ObjType::Other => 5,
    }
}

/// A field with an object's type.
fn obj_type_units(field: Field, obj_type: ObjType) -> u64
    ensures { result ≡ capped (units_in (must field (obj_type_text obj_type))) }
{
    plus(tags_units(field), obj_type_len(obj_type))
}

/// The characters of the word of an answer.
fn ack_status_len(status: AckStatus) -> u64
    ensures { result ≡ length (ack_status_text status) }
{
    match status {
        AckStatus::Ack => 3,
        AckStatus::Nack => 4,
    }
}

/// A field with the word of an answer.
fn ack_status_units(field: Field, status: AckStatus) -> u64
    ensures { result ≡ capped (units_in (must field (ack_status_text status))) }
{
    plus(tags_units(field), ack_status_len(status))
}

/// A raw element, which stands as it was written.
fn raw_units(raw: &Unread) -> u64
    ensures { result ≡ capped (length (units_of raw.now)) }
{
    plus(raw.units().len() as u64, 0)
}

/// Raw elements of a field.
fn raws_units(field: Field, list: &[Unread]) -> u64
    ensures { result ≡ capped (units_in (raws field list.now)) }
{
    let mut count = 0;
    for raw in list {
        count = plus(count, raw_units(raw));
    }
    count
}

/// A field with its value.
#[tactic(auto, using(crate::proofs::Counts::units_in_must_raw, crate::proofs::Encoding::units_in_nil), unfolding(crate::specs::Parts::maybe, crate::specs::Parts::maybe_as, crate::specs::Parts::maybe_raw))]
fn piece_units(piece: &Piece) -> u64
    ensures { result ≡ capped (units_in (piece_events piece.now)) }
{
    match piece {
        Piece::Text(field, text) => text_units(*field, text),
        Piece::OptionalText(field, text) => match text {
            None => 0,
            Some(text) => text_units(*field, text),
        },
        Piece::OptionalSlug(field, slug) => match slug {
            None => 0,
            Some(slug) => text_units(*field, slug.text()),
        },
        Piece::OptionalOptId(field, id) => match id {
            None => 0,
            Some(id) => text_units(*field, id.text()),
        },
        Piece::Samples(field, samples) => number_units(*field, samples.count()),
        Piece::OptionalSamples(field, samples) => match samples {
            None => 0,
            Some(samples) => number_units(*field, samples.count()),
        },
        Piece::OptionalRev(field, rev) => match rev {
            None => 0,
            Some(rev) => number_units(*field, u32::from(rev.number())),
        },
        Piece::Time(field, time) => time_units(*field, time),
        Piece::OptionalTime(field, time) => optional_time_units(*field, time),
        Piece::Air(field, air) => air_units(*field, *air),
        Piece::OptionalAir(field, air) => match air {
            None => 0,
            Some(air) => air_units(*field, *air),
        },
        Piece::OptionalObjType(field, obj_type) => match obj_type {
            None => 0,
            Some(obj_type) => obj_type_units(*field, *obj_type),
        },
        Piece::AckStatus(field, status) => ack_status_units(*field, *status),
        Piece::Raw(_, raw) => raw_units(raw),
        Piece::OptionalRaw(_, raw) => match raw {
            None => 0,
            Some(raw) => raw_units(raw),
        },
        Piece::Raws(field, list) => raws_units(*field, list),
    }
}

/// The fields of a record.
pub fn pieces_units(pieces: &[Piece]) -> u64
    ensures { result ≡ capped (units_in (pieces_events pieces.now)) }
{
    let mut count = 0;
    for piece in pieces {
        count = plus(count, piece_units(piece));
    }
    count
}

/// The element of a field, round what stands in it.
pub fn element_units(field: Field, inside: u64) -> u64
    ensures { result ≡ capped (2 * length (name_of field) + 5 + inside) }
{
    plus(tags_units(field), inside)
}
