//! The raw elements among the fields of a record.
ghost use Rattle.std.specs.Prelude.{◌≡◌, ◌↔◌, IsTrue, map};
ghost use Rattle.mos_fields.specs.Fields.{name_of, same};
ghost use Rattle.mos_fields.specs.Forms.{among};
ghost use Rattle.mos_tables.specs.declared.column.Column.{Column as ColumnOf};
ghost use Rattle.mos_tables.specs.declared.others.Others.TheVariants.{Kept};
ghost use Rattle.mos_tables.specs.Events.{raw as raw_event};
ghost use Rattle.mos_tables.specs.Tables.{others};
ghost use Rattle.mos_values.specs.Parts.{raws as raws_of};
ghost use Rattle.mos_values.specs.Pieces.{piece_events, pieces_events};
ghost use Rattle.mos_values.specs.Sound.{AllFit, Fits, IsOther};

use crate::names::{element_name, has_name, is_word};
use mos_fields::{Field, Unread};
use mos_tables::{Column, Table};
use mos_values::Piece;

/// Whether the field has the name.
fn is_named(column: &Column, name: &[u16]) -> bool
    ensures { result ≡ same name.now (name_of (column.now).field) }
{
    is_word(name, column.field.name())
}

/// Whether one of these fields has the name.
fn is_column(columns: &[Column], name: &[u16]) -> bool
    ensures { result ≡ among name.now (map (λ (c : ColumnOf). name_of c.field) columns.now) }
{
    match columns {
        [] => false,
        [c, cs @ ..] => is_named(c, name) || is_column(cs, name),
    }
}

/// Whether the record keeps elements of this name which its table doesn't have.
fn keeps(table: Table, name: &[u16]) -> bool
    ensures { IsTrue result ↔ (others table name.now ≡ Kept) }
{
    match table {
        Table::HeaderPatch => !is_word(name, "story"),
        Table::Body
        | Table::Story
        | Table::Item
        | Table::MosObj
        | Table::ListMachInfo
        | Table::StorySend => true,
        _ => false,
    }
}

/// Whether the record keeps this element, which its table doesn't have.
fn is_other(table: Table, raw: &Unread) -> bool
    ensures { IsTrue result ↔ IsOther table raw.now }
{
    let name = element_name(raw);
    !is_column(table.columns(), name) && keeps(table, name)
}

/// Whether a raw element may stand as this field of the record.
fn fits(table: Table, field: Field, raw: &Unread) -> bool
    ensures { IsTrue result ↔ Fits table (raw_event field raw.now) }
{
    match field {
        Field::Kept => is_other(table, raw),
        _ => has_name(raw, field),
    }
}

/// Whether each of these raw elements may stand as this field of the record.
fn all_fit(table: Table, field: Field, raws: &[Unread]) -> bool
    ensures { IsTrue result ↔ AllFit table (raws_of field raws.now) }
{
    for raw in raws {
        if !fits(table, field, raw) {
            return false;
        }
    }
    true
}

/// Whether a field may stand in the record. One that isn't raw always may.
fn piece_fits(table: Table, piece: &Piece) -> bool
    ensures { IsTrue result ↔ AllFit table (piece_events piece.now) }
{
    match piece {
        Piece::Raw(field, raw) => fits(table, *field, raw),
        Piece::OptionalRaw(field, raw) => match raw {
            None => true,
            Some(raw) => fits(table, *field, raw),
        },
        Piece::Raws(field, raws) => all_fit(table, *field, raws),
        _ => true,
    }
}

/// Whether all these fields may stand in the record.
pub fn pieces_fit(table: Table, pieces: &[Piece]) -> bool
    ensures { IsTrue result ↔ AllFit table (pieces_events pieces.now) }
{
    for piece in pieces {
        if !piece_fits(table, piece) {
            return false;
        }
    }
    true
}
