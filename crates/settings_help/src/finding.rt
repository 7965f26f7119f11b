//! Where a fault is found.
ghost use Rattle.std.specs.Prelude.{◌≡◌, ◌≤◌, ◌<◌, ◌+◌, ◌^◌, IfOk, length};
ghost use Rattle.toml.specs.View.{items_view, table_view};
ghost use Rattle.end_settings.specs.Ends.{table_in};
ghost use Rattle.end_settings.specs.Readable.{items_of};
ghost use Rattle.end_settings.specs.Values.{value_of};
ghost use Rattle.settings_help.specs.Places.{IsLineOf, IsPlaceOf, feed_of, is_of_device, key_place_of, line_at, line_feeds, named_place_of, place_in, place_in_table, unread_place_of};

use crate::names::{first_named, name_at};
use crate::place::Place;
use end_settings::{Key, SettingsFault, count_readable, device_values, read_document};
use mos_fields::{NoMemory, Text};
use std::alloc::Global;
use toml::de::Error;
use toml::{Table, Value};

// One for a line feed, else nothing.
fn feed(byte: u8) -> usize
    ensures feed { result ≡ feed_of byte }
    ensures few { result ≤ 1 }
{
    if byte == b'\n' { 1 } else { 0 }
}

// How many line feeds these bytes have.
fn count_feeds(bytes: &[u8]) -> usize
    ensures feeds { result ≡ line_feeds bytes.now }
    ensures few { result ≤ length bytes.now }
{
    let mut count = 0;
    let mut rest = bytes;
    while let [byte, more @ ..] = rest {
        count += feed(*byte);
        rest = more;
    }
    count
}

// The number of the line, counted from 1, in which this byte of a text stands.
fn line_of(text: &[u8], at: usize) -> u64
    requires { at ≤ length text.now }
    ensures { result ≡ line_at text.now at }
{
    count_feeds(&text[..at]) as u64 + 1
}

// The line where reading a text as TOML broke off.
fn broken_line(alloc: Global, text: &[u8]) -> Result<Place, NoMemory>
    ensures { IfOk result (λ p. IsLineOf text.now p) }
{
    let fault = match toml::table_from_slice(alloc, text) {
        Ok(_) => return Ok(Place::Top),
        Err(fault) => fault,
    };
    match fault.span() {
        None => Err(NoMemory),
        Some(span) => line_place(alloc, text, span.start, &fault),
    }
}

// The line of this byte, with what is wrong.
fn line_place(alloc: Global, text: &[u8], at: usize, fault: &Error) -> Result<Place, NoMemory>
    requires { at ≤ length text.now }
    ensures { IfOk result (λ p. IsLineOf text.now p) }
{
    Ok(Place::Line {
        number: line_of(text, at),
        cause: String::from_str(alloc, fault.message())?,
    })
}

// Whether a key stands in a table of devices.
fn of_device(key: Key) -> bool
    ensures { result ≡ is_of_device key }
{
    matches!(
        key,
        Key::DeviceMosId | Key::DeviceHost | Key::DeviceUpper | Key::DeviceLower
    )
}

// The place of a fault at this key of the table behind so many.
fn table_place(alloc: Global, values: &[Value], at: usize, key: Key) -> Result<Place, NoMemory>
    requires { at < length values.now }
    ensures { IfOk result (λ p. p ≡ place_in_table (items_view values.now) at key) }
{
    let name = name_at(alloc, values, at)?;
    let first = first_named(alloc, values, &name)?;
    Ok(named_place(at, name, first, key))
}

// The place of a fault at this key of the table behind so many, with this mos_id, which the table behind so many others has as
// the first.
fn named_place(at: usize, name: Text, first: usize, key: Key) -> Place
    requires { at + 1 < 2 ^ 64 }
    ensures { result ≡ named_place_of at name first key }
{
    let number = at as u64 + 1;
    if key == Key::DeviceMosId && first < at {
        Place::Twice {
            number,
            name,
            first: first as u64 + 1,
        }
    } else {
        Place::Table { number, name }
    }
}

// The place of a fault at a key of the first of these values that can't be read.
#[tactic(auto, using(end_settings::proofs::DeviceLemmas::count_items))]
fn unread_place(alloc: Global, values: &[Value], key: Key) -> Result<Place, NoMemory>
    ensures { IfOk result (λ p. p ≡ unread_place_of (items_view values.now) key) }
{
    let at = count_readable(alloc, values)?;
    if at < values.len() {
        table_place(alloc, values, at, key)
    } else {
        Ok(Place::Top)
    }
}

// The place of a fault at a key of a table of devices: in the first table that can't be read.
fn device_place(alloc: Global, table: &Table, key: Key) -> Result<Place, NoMemory>
    ensures { IfOk result (λ p. p ≡ place_in (items_of (value_of Key.Devices (table_view table.now))) key) }
{
    let Some(values) = device_values(table) else {
        return Ok(Place::Top);
    };
    unread_place(alloc, values, key)
}

// The place of a fault at a key.
fn key_place(alloc: Global, text: &[u8], key: Key) -> Result<Place, NoMemory>
    ensures { IfOk result (λ p. p ≡ key_place_of (table_in text.now) key) }
{
    if !of_device(key) {
        return Ok(Place::Top);
    }
    match read_document(alloc, text) {
        Ok(table) => device_place(alloc, &table, key),
        Err(SettingsFault::NoMemory) => Err(NoMemory),
        Err(_) => Ok(Place::Top),
    }
}

/// Where in a text the fault is that reading it gave: the line where it is no TOML, or the first table of devices that can't be
/// read; else it is a key of the text's own. The only error is that memory runs out.
///
/// A line's number counts the line feeds before the place where the reader of TOML broke off, and one; what it says of the
/// cause is tested only. A table is the first one that can't be read behind those before it. At a `mos_id` that an earlier
/// table has, that one is told too.
pub fn place_of(alloc: Global, text: &[u8], fault: SettingsFault) -> Result<Place, NoMemory>
    ensures { IfOk result (λ p. IsPlaceOf text.now fault p) }
{
    match fault {
        SettingsFault::NotToml => broken_line(alloc, text),
        SettingsFault::Missing { key } | SettingsFault::BadValue { key } => {
            key_place(alloc, text, key)
        }
        SettingsFault::NoMemory => Ok(Place::Top),
    }
}
