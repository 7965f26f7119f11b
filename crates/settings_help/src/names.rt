//! The mos_ids of tables of devices.
ghost use Rattle.std.specs.Prelude.{◌≡◌, IfOk};
ghost use Rattle.toml.specs.View.{items_view, table_view, view};
ghost use Rattle.mos_fields.specs.Fields.{same};
ghost use Rattle.settings_help.specs.Places.{first_named as first_named_of, name_at as name_at_of, name_in, name_of};

use end_settings::{Key, SettingsFault, required_id};
use mos_fields::{NoMemory, Text};
use std::alloc::Global;
use toml::{Table, Value};

// The mos_id of a table, where one can be read; else nothing.
fn table_name(alloc: Global, table: &Table) -> Result<Text, NoMemory>
    ensures { IfOk result (λ t. t ≡ name_of (table_view table.now)) }
{
    match required_id(alloc, table, Key::DeviceMosId) {
        Ok(id) => Ok(id.into_text()),
        Err(SettingsFault::NoMemory) => Err(NoMemory),
        Err(_) => Ok(Text::new(alloc)),
    }
}

/// The mos_id of a value that is a table, where one can be read; else nothing.
pub(crate) fn name_in_value(alloc: Global, value: &Value) -> Result<Text, NoMemory>
    ensures { IfOk result (λ t. t ≡ name_in (view value.now)) }
{
    match value.as_table() {
        Some(table) => table_name(alloc, table),
        None => Ok(Text::new(alloc)),
    }
}

/// The mos_id of the value behind so many; nothing where there are no more.
pub(crate) fn name_at(alloc: Global, values: &[Value], at: usize) -> Result<Text, NoMemory>
    ensures { IfOk result (λ t. t ≡ name_at_of at (items_view values.now)) }
{
    let mut left = at;
    let mut rest = values;
    while let [value, more @ ..] = rest {
        if left == 0 {
            return name_in_value(alloc, value);
        }
        left -= 1;
        rest = more;
    }
    Ok(Text::new(alloc))
}

// Whether both texts are the same.
fn are_same(one: &Text, other: &Text) -> bool
    ensures { result ≡ same one.now other.now }
{
    one.is(other)
}

/// How many values stand before the first with this mos_id; all of them, where none has it.
pub(crate) fn first_named(alloc: Global, values: &[Value], name: &Text) -> Result<usize, NoMemory>
    ensures { IfOk result (λ n. n ≡ first_named_of name.now (items_view values.now)) }
{
    let mut before = 0;
    let mut rest = values;
    while let [value, more @ ..] = rest {
        let found = name_in_value(alloc, value)?;
        if are_same(name, &found) {
            return Ok(before);
        }
        before += 1;
        rest = more;
    }
    Ok(before)
}
