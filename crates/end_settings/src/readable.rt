//! How many tables of devices can be read.
ghost use Rattle.std.specs.Prelude.{◌≡◌, [], IfOk};
ghost use Rattle.std.specs.Option.{option_map};
ghost use Rattle.toml.specs.View.{items_view, table_view};
ghost use Rattle.end_settings.specs.Readable.{items_of, readable_from};
ghost use Rattle.end_settings.specs.Values.{value_of};

use crate::devices::{Devices, device_in};
use crate::fault::SettingsFault;
use crate::key::Key;
use crate::values::value_at;
use mos_fields::NoMemory;
use std::alloc::Global;
use toml::{Table, Value};

/// The values of the key `devices`, where it has an array.
pub fn device_values(table: &Table) -> Option<&[Value]>
    ensures { option_map (λ v. items_view v.now) result ≡ items_of (value_of Key.Devices (table_view table.now)) }
{
    match value_at(table, Key::Devices) {
        Some(value) => match value.as_array() {
            Some(values) => Some(values),
            None => None,
        },
        None => None,
    }
}

/// How many of these values at their front are tables of devices that can be read, one after the other, before the first that
/// can't. The only error is that memory runs out.
#[tactic(auto, unfolding(crate::specs::Readable::readable_from))]
pub fn count_readable(alloc: Global, values: &[Value]) -> Result<usize, NoMemory>
    ensures { IfOk result (λ n. n ≡ readable_from [] (items_view values.now)) }
{
    let mut devices = Devices::new(alloc);
    let mut rest = values;
    while let [value, more @ ..] = rest {
        let device = match device_in(alloc, &devices, value) {
            Ok(device) => device,
            Err(SettingsFault::NoMemory) => return Err(NoMemory),
            Err(_) => return Ok(devices.len()),
        };
        devices.push(device)?;
        rest = more;
    }
    Ok(devices.len())
}
