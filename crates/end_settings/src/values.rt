//! The value at a key, by its kind.
ghost use Rattle.std.specs.Prelude.{◌≡◌, ◌≤◌, IfOk, IfSome};
ghost use Rattle.std.specs.Option.{option_map};
ghost use Rattle.std.specs.Str.{chars};
ghost use Rattle.toml.specs.Data.{string};
ghost use Rattle.toml.specs.View.{table_view, view};
ghost use Rattle.mos_fields.specs.Faults.{id_fault, text_fault};
ghost use Rattle.end_settings.specs.Given.{Gives, faultless as faultless_of};
ghost use Rattle.end_settings.specs.Values.{budget_in, budget_limit, filled_fault, filled_in, id_in, maybe, must, number_to, otherwise, port_in, port_limit, text_in, value_of};

use crate::fault::SettingsFault;
use crate::given::{faultless, some_given};
use crate::key::Key;
use mos_fields::{FieldFault, Id, Text};
use std::alloc::{AllocError, Global};
use toml::{Table, Value};

/// The greatest port.
const PORT_LIMIT: u64 = 65_535;

/// The greatest budget, a tebibyte.
const BUDGET_LIMIT: u64 = 1_099_511_627_776;

/// What a table has at a key.
pub fn value_at(table: &Table, key: Key) -> Option<&Value>
    ensures { option_map (λ v. view v.now) result ≡ value_of key (table_view table.now) }
{
    table.get(key.name())
}

/// The characters of a text in UTF-8.
fn chars_of(alloc: Global, text: &str) -> Result<Vec<char>, AllocError>
    ensures { IfOk result (λ v. v.items ≡ chars text.now) }
{
    text.chars().collect(alloc)
}

/// The ID that these characters are.
fn id_of(alloc: Global, key: Key, text: &str) -> Result<Id, SettingsFault>
    ensures { Gives (faultless_of key (id_fault (chars text.now)) (chars text.now)) result }
{
    let chars = chars_of(alloc, text)?;
    faultless(key, Id::try_new(alloc, &chars))
}

/// The text that these characters are.
fn text_of(alloc: Global, key: Key, text: &str) -> Result<Text, SettingsFault>
    ensures { Gives (faultless_of key (text_fault (chars text.now)) (chars text.now)) result }
{
    let chars = chars_of(alloc, text)?;
    faultless(key, Text::try_new(alloc, &chars))
}

/// The text, if it isn't empty, that these characters are.
fn filled_of(alloc: Global, key: Key, text: &str) -> Result<Text, SettingsFault>
    ensures { Gives (faultless_of key (filled_fault (chars text.now)) (chars text.now)) result }
{
    let read = text_of(alloc, key, text)?;
    if read.is_empty() {
        return Err(SettingsFault::BadValue { key });
    }
    Ok(read)
}

/// The ID at a key that has to be there: 1 to 128 characters that XML 1.0 allows.
pub fn required_id(alloc: Global, table: &Table, key: Key) -> Result<Id, SettingsFault>
    ensures { Gives (must id_in key (value_of key (table_view table.now))) result }
{
    match value_at(table, key) {
        None => Err(SettingsFault::Missing { key }),
        Some(value) => match value.as_str() {
            None => Err(SettingsFault::BadValue { key }),
            Some(text) => id_of(alloc, key, text),
        },
    }
}

/// The host or path at a key, whose value this is: a text that isn't empty, of characters that XML 1.0 allows.
fn filled(alloc: Global, value: &Value, key: Key) -> Result<Text, SettingsFault>
    ensures { Gives (filled_in key (view value.now)) result }
{
    match value.as_str() {
        None => Err(SettingsFault::BadValue { key }),
        Some(text) => filled_of(alloc, key, text),
    }
}

/// The host or path at a key that has to be there.
pub fn required_text(alloc: Global, table: &Table, key: Key) -> Result<Text, SettingsFault>
    ensures { Gives (must filled_in key (value_of key (table_view table.now))) result }
{
    match value_at(table, key) {
        None => Err(SettingsFault::Missing { key }),
        Some(value) => filled(alloc, value, key),
    }
}

/// The path at a key that may be lacking.
pub fn optional_path(alloc: Global, table: &Table, key: Key) -> Result<Option<Text>, SettingsFault>
    ensures { Gives (maybe filled_in key (value_of key (table_view table.now))) result }
{
    match value_at(table, key) {
        None => Ok(None),
        Some(value) => some_given(filled(alloc, value, key)),
    }
}

/// The text, which may be empty, at a key, whose value this is: characters that XML 1.0 allows.
fn plain(alloc: Global, value: &Value, key: Key) -> Result<Text, SettingsFault>
    ensures { Gives (text_in key (view value.now)) result }
{
    match value.as_str() {
        None => Err(SettingsFault::BadValue { key }),
        Some(text) => text_of(alloc, key, text),
    }
}

/// The text, which may be empty, at a key that may be lacking.
pub fn optional_text(alloc: Global, table: &Table, key: Key) -> Result<Option<Text>, SettingsFault>
    ensures { Gives (maybe text_in key (value_of key (table_view table.now))) result }
{
    match value_at(table, key) {
        None => Ok(None),
        Some(value) => some_given(plain(alloc, value, key)),
    }
}

/// The integer, if it is one from 1 to this number.
fn number_up_to(value: &Value, most: u64) -> Option<u64>
    ensures number { result ≡ number_to most (view value.now) }
    ensures small { IfSome result (λ n. n ≤ most) }
{
    match value.as_integer() {
        Some(number) if number >= 1 => {
            let number = number as u64;
            if number <= most { Some(number) } else { None }
        }
        _ => None,
    }
}

/// The port at a key, from 1 to 65535; without the key it is the default.
pub fn port(table: &Table, key: Key, default: u16) -> Result<u16, SettingsFault>
    ensures { result ≡ otherwise port_in default key (value_of key (table_view table.now)) }
{
    match value_at(table, key) {
        None => Ok(default),
        Some(value) => match number_up_to(value, PORT_LIMIT) {
            Some(number) => Ok(number as u16),
            None => Err(SettingsFault::BadValue { key }),
        },
    }
}

/// The budget at a key, from 1 to 1099511627776 bytes; without the key it is the default.
pub fn budget(table: &Table, key: Key, default: u64) -> Result<u64, SettingsFault>
    ensures { result ≡ otherwise budget_in default key (value_of key (table_view table.now)) }
{
    match value_at(table, key) {
        None => Ok(default),
        Some(value) => match number_up_to(value, BUDGET_LIMIT) {
            Some(number) => Ok(number),
            None => Err(SettingsFault::BadValue { key }),
        },
    }
}
