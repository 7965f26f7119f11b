//! Where a fault is.
ghost use Rattle.std.specs.Prelude.{◌≡◌, ◌++◌, OnOk, string_bytes};
ghost use Rattle.settings_help.specs.Lines.{named, place_words, table_words};

use crate::parts::{push_number, push_text, push_word};
use mos_fields::{NoMemory, Text};
use std::alloc::Global;

/// Where a fault is. Lines and tables are counted from 1.
#[derive(Drop)]
pub enum Place {
    /// At a key of the file's own.
    Top,
    /// In this line, and what is wrong there.
    Line { number: u64, cause: String },
    /// In this table of devices, and its mos_id, or nothing where none can be read.
    Table { number: u64, name: Text },
    /// In this table of devices, whose mos_id an earlier one has too.
    Twice { number: u64, name: Text, first: u64 },
}

// Appends a device's name in brackets and with a space before it, or nothing where it is empty.
fn push_named(alloc: Global, out: &mut String, name: &Text) -> Result<(), NoMemory>
    ensures { OnOk result (string_bytes out.new ≡ string_bytes out.old ++ named name.now) }
{
    if name.is_empty() {
        return Ok(());
    }
    push_word(out, " (")?;
    push_text(alloc, out, name)?;
    push_word(out, ")")
}

// Appends the number of a table of devices.
fn push_count(alloc: Global, out: &mut String, number: u64) -> Result<(), NoMemory>
    ensures { OnOk result (string_bytes out.new ≡ string_bytes out.old ++ table_words number) }
{
    push_word(out, ", devices table ")?;
    push_number(alloc, out, number)?;
    Ok(())
}

// Appends the number of a table of devices and its name.
fn push_table(alloc: Global, out: &mut String, number: u64, name: &Text) -> Result<(), NoMemory>
    ensures { OnOk result (string_bytes out.new ≡ string_bytes out.old ++ (table_words number ++ named name.now)) }
{
    push_count(alloc, out, number)?;
    push_named(alloc, out, name)?;
    Ok(())
}

/// Appends a place, with a comma before it, or nothing where it is a key of the file's own.
pub(crate) fn push_place(alloc: Global, out: &mut String, place: &Place) -> Result<(), NoMemory>
    ensures { OnOk result (string_bytes out.new ≡ string_bytes out.old ++ place_words place.now) }
{
    match place {
        Place::Top => Ok(()),
        Place::Line { number, cause: _ } => {
            push_word(out, ", line ")?;
            push_number(alloc, out, *number)
        }
        Place::Table { number, name } => push_table(alloc, out, *number, name),
        Place::Twice {
            number,
            name: _,
            first: _,
        } => push_count(alloc, out, *number),
    }
}
