//! Lines on keys that a program doesn't know.
ghost use Rattle.std.specs.Prelude.{◌≡◌, ◌++◌, ◌+◌, ◌<◌, ◌^◌, IfOk, OnOk, cond, [], string_bytes};
ghost use Rattle.toml.specs.View.{items_view, table_view, view};
ghost use Rattle.end_settings.specs.Readable.{items_of};
ghost use Rattle.end_settings.specs.Values.{value_of};
ghost use Rattle.settings_help.specs.Known.{knows as knows_of, unknown_in, unknown_in_table, unknown_in_tables, unknown_line, unknown_of, unknown_of_devices};

use crate::known::{Program, known_keys, knows, table_keys};
use crate::names::name_in_value;
use crate::parts::{push_str, push_word};
use crate::place::{Place, push_place};
use end_settings::{Key, device_values};
use mos_fields::NoMemory;
use std::alloc::Global;
use toml::{Table, Value};

// Appends the line on a key.
fn push_line(
    alloc: Global,
    out: &mut String,
    file: &str,
    place: &Place,
    name: &str,
) -> Result<(), NoMemory>
    ensures { OnOk result (string_bytes out.new ≡ string_bytes out.old ++ unknown_line file.now place.now name.now) }
{
    push_word(out, file)?;
    push_place(alloc, out, place)?;
    push_word(out, ": key ")?;
    push_str(alloc, out, name)?;
    push_word(out, " isn't known and isn't used\n")?;
    Ok(())
}

// Appends the line on a key that isn't among these.
fn push_key(
    alloc: Global,
    out: &mut String,
    file: &str,
    place: &Place,
    known: &[Key],
    name: &str,
) -> Result<(), NoMemory>
    ensures { OnOk result (string_bytes out.new ≡ string_bytes out.old ++ cond (knows_of known.now name.now) [] (unknown_line file.now place.now name.now)) }
{
    if knows(known, name) {
        Ok(())
    } else {
        push_line(alloc, out, file, place, name)
    }
}

// Appends the lines on the keys of a table that aren't among these.
fn push_keys(
    alloc: Global,
    out: &mut String,
    file: &str,
    place: &Place,
    known: &[Key],
    table: &Table,
) -> Result<(), NoMemory>
    ensures { OnOk result (string_bytes out.new ≡ string_bytes out.old ++ unknown_in file.now place.now known.now (table_view table.now)) }
{
    'keys: for (name, _value) in table.iter() {
        push_key(alloc, out, file, place, known, name.as_str())?;
    }
    Ok(())
}

// Appends the lines on the keys of a table of devices behind so many.
fn push_table(
    alloc: Global,
    out: &mut String,
    file: &str,
    before: u64,
    value: &Value,
) -> Result<(), NoMemory>
    requires { before + 1 < 2 ^ 64 }
    ensures { OnOk result (string_bytes out.new ≡ string_bytes out.old ++ unknown_in_table file.now before (view value.now)) }
{
    let Some(table) = value.as_table() else {
        return Ok(());
    };
    let name = name_in_value(alloc, value)?;
    let place = Place::Table {
        number: before + 1,
        name,
    };
    push_keys(alloc, out, file, &place, table_keys(), table)
}

// Appends the lines on the keys of the tables of devices.
fn push_tables(
    alloc: Global,
    out: &mut String,
    file: &str,
    values: &[Value],
) -> Result<(), NoMemory>
    ensures { OnOk result (string_bytes out.new ≡ string_bytes out.old ++ unknown_in_tables file.now 0 (items_view values.now)) }
{
    let mut before = 0;
    let mut rest = values;
    while let [value, more @ ..] = rest {
        push_table(alloc, out, file, before, value)?;
        before += 1;
        rest = more;
    }
    Ok(())
}

// Appends the lines on the keys of the tables of devices, which the server alone has.
fn push_devices(
    alloc: Global,
    out: &mut String,
    file: &str,
    program: Program,
    table: &Table,
) -> Result<(), NoMemory>
    ensures { OnOk result (string_bytes out.new ≡ string_bytes out.old ++ unknown_of_devices file.now program (items_of (value_of Key.Devices (table_view table.now)))) }
{
    match program {
        Program::Gateway => Ok(()),
        Program::Server => match device_values(table) {
            Some(values) => push_tables(alloc, out, file, values),
            None => Ok(()),
        },
    }
}

/// A line for each key of a file's table that the program doesn't use, in the order of their names, and then of those in its
/// tables of devices, each with a line feed. The only error is that memory runs out.
pub fn unknown_lines(
    alloc: Global,
    file: &str,
    program: Program,
    table: &Table,
) -> Result<String, NoMemory>
    ensures { IfOk result (λ lines. string_bytes lines ≡ unknown_of file.now program (table_view table.now)) }
{
    let mut lines = String::new(alloc);
    push_keys(
        alloc,
        &mut lines,
        file,
        &Place::Top,
        known_keys(program),
        table,
    )?;
    push_devices(alloc, &mut lines, file, program, table)?;
    Ok(lines)
}
