//! The server's devices.
ghost use Rattle.std.specs.Prelude.{◌≡◌, ◌++◌, ◌==◌, [], ◌∷◌, IfOk, List, OnErr, OnOk, length, slice_get};
ghost use Rattle.std.specs.Option.{option_copied};
ghost use Rattle.toml.specs.View.{items_view, table_view, view};
ghost use Rattle.mos_fields.specs.Fields.{same};
ghost use Rattle.mos_fields.specs.Forms.{among};
ghost use Rattle.end_settings.specs.declared.devices.DeviceSettings.{DeviceSettings as Device};
ghost use Rattle.end_settings.specs.Devices.{are_tables as are_tables_of, count, device_at, device_of as device_read, device_with, devices_from, devices_in as devices_read, devices_of, is_device_list as is_list_of_devices, mos_ids, unless_taken};
ghost use Rattle.end_settings.specs.Given.{Gives, made};
ghost use Rattle.end_settings.specs.Values.{id_in, must, value_of};

use crate::fault::SettingsFault;
use crate::given::pair_given;
use crate::key::Key;
use crate::values::{port, required_id, required_text, value_at};
use mos_fields::{Id, NoMemory, Text};
use std::alloc::Global;
use std::marker::Model;
use toml::{Table, Value};

/// One device of the server: a table of `devices`.
#[derive(Drop)]
pub struct DeviceSettings {
    /// The device's ID.
    pub mos_id: Id,
    /// Where the device is found.
    pub host: Text,
    /// The device's port for running order messages; 10541 unless given.
    pub upper: u16,
    /// The device's port for media object messages; 10540 unless given.
    pub lower: u16,
}

impl DeviceSettings {
    /// The same settings again, in memory of their own.
    pub fn try_clone(&self) -> Result<Self, NoMemory>
        ensures { IfOk result (λ d. d ≡ self.now) }
    {
        Ok(DeviceSettings {
            mos_id: self.mos_id.try_clone()?,
            host: self.host.try_clone()?,
            upper: self.upper,
            lower: self.lower,
        })
    }
}

/// A list of devices.
#[derive(Drop)]
pub struct Devices {
    devices: Vec<DeviceSettings>,
}

impl Model for Devices {
    ghost Value = { List Device };

    ghost view = { λ v. v.devices.items };
}

impl Devices {
    /// The empty list.
    pub fn new(alloc: Global) -> Self
        ensures { result ≡ [] }
    {
        Devices {
            devices: Vec::new(alloc),
        }
    }

    /// How many there are.
    pub fn len(&self) -> usize
        ensures { result ≡ length self.now }
    {
        self.devices.len()
    }

    /// Whether there is none.
    pub fn is_empty(&self) -> bool
        ensures { result ≡ (length self.now == 0) }
    {
        self.devices.is_empty()
    }

    /// The one at a place, which counts from 0.
    pub fn get(&self, i: usize) -> Option<&DeviceSettings>
        ensures { option_copied result ≡ slice_get self.now i }
    {
        self.devices.get(i)
    }

    /// All of them.
    pub fn as_slice(&self) -> &[DeviceSettings]
        ensures { result.now ≡ self.now }
    {
        &self.devices
    }

    /// Adds one at the end. Without memory for it the list stays as it was, and what was to be added is dropped.
    pub fn push(&mut self, device: DeviceSettings) -> Result<(), NoMemory>
        ensures ok { OnOk result (self.new ≡ self.old ++ device ∷ []) }
        ensures err { OnErr result (self.new ≡ self.old) }
    {
        self.devices.push(device)?;
        Ok(())
    }

    /// The same list again, in memory of its own.
    pub fn try_clone(&self) -> Result<Self, NoMemory>
        ensures { IfOk result (λ v. v ≡ self.now) }
    {
        let mut devices = Vec::with_capacity(*self.devices.allocator(), self.devices.len())?;
        for device in &self.devices {
            devices.push(device.try_clone()?)?;
        }
        Ok(Devices { devices })
    }
}

/// Whether a device has this mosID.
fn has_id(device: &DeviceSettings, id: &Id) -> bool
    ensures { result ≡ same id.now device.now.mos_id }
{
    id.is(&device.mos_id)
}

/// Whether one of these devices has this mosID.
fn has(devices: &[DeviceSettings], id: &Id) -> bool
    ensures { result ≡ among id.now (mos_ids devices.now) }
{
    let mut rest = devices;
    while let [device, more @ ..] = rest {
        if has_id(device, id) {
            return true;
        }
        rest = more;
    }
    false
}

/// The mosID, if it is one that no device has.
fn new_mos_id(devices: &Devices, id: Result<Id, SettingsFault>) -> Result<Id, SettingsFault>
    ensures { result ≡ unless_taken devices.now id }
{
    match id {
        Err(fault) => Err(fault),
        Ok(id) => {
            if has(&devices.devices, &id) {
                return Err(SettingsFault::BadValue {
                    key: Key::DeviceMosId,
                });
            }
            Ok(id)
        }
    }
}

/// The device of these parts.
fn device_from(
    parts: Result<((Id, Text), (u16, u16)), SettingsFault>,
) -> Result<DeviceSettings, SettingsFault>
    ensures { result ≡ made device_with parts }
{
    match parts {
        Ok(((mos_id, host), (upper, lower))) => Ok(DeviceSettings {
            mos_id,
            host,
            upper,
            lower,
        }),
        Err(fault) => Err(fault),
    }
}

/// The device of a table, after the devices of the tables before it.
fn device(alloc: Global, before: &Devices, table: &Table) -> Result<DeviceSettings, SettingsFault>
    ensures { Gives (device_read before.now (table_view table.now)) result }
{
    let mos_id = new_mos_id(before, required_id(alloc, table, Key::DeviceMosId));
    let host = required_text(alloc, table, Key::DeviceHost);
    let upper = port(table, Key::DeviceUpper, 10_541);
    let lower = port(table, Key::DeviceLower, 10_540);
    device_from(pair_given(pair_given(mos_id, host), pair_given(upper, lower)))
}

/// Whether all of these are tables.
fn are_tables(values: &[Value]) -> bool
    ensures { result ≡ are_tables_of (items_view values.now) }
{
    let mut rest = values;
    while let [value, more @ ..] = rest {
        if !value.is_table() {
            return false;
        }
        rest = more;
    }
    true
}

/// How many values these are.
#[tactic(auto, using(crate::proofs::DeviceLemmas::count_items))]
fn count_values(values: &[Value]) -> usize
    ensures { result ≡ count (items_view values.now) }
{
    values.len()
}

/// Whether these are 1 to 64 tables.
fn is_device_list(values: &[Value]) -> bool
    ensures { result ≡ is_list_of_devices (items_view values.now) }
{
    let count = count_values(values);
    1 <= count && count <= 64 && are_tables(values)
}

/// The device of a value, after the devices of the values before it. `BadValue` comes for one that is no table.
pub(crate) fn device_in(
    alloc: Global,
    before: &Devices,
    value: &Value,
) -> Result<DeviceSettings, SettingsFault>
    ensures { Gives (device_at before.now (view value.now)) result }
{
    match value.as_table() {
        Some(table) => device(alloc, before, table),
        None => Err(SettingsFault::BadValue { key: Key::Devices }),
    }
}

/// The devices of values.
#[tactic(auto, unfolding(crate::specs::Devices::devices_from))]
fn read_devices(alloc: Global, values: &[Value]) -> Result<Devices, SettingsFault>
    ensures { Gives (devices_from [] (items_view values.now)) result }
{
    let mut devices = Devices::new(alloc);
    let mut rest = values;
    while let [value, more @ ..] = rest {
        let device = device_in(alloc, &devices, value)?;
        devices.push(device)?;
        rest = more;
    }
    Ok(devices)
}

/// The devices of an array of 1 to 64 tables.
fn devices_in(alloc: Global, value: &Value) -> Result<Devices, SettingsFault>
    ensures { Gives (devices_read (view value.now)) result }
{
    match value.as_array() {
        Some(values) if is_device_list(values) => read_devices(alloc, values),
        _ => Err(SettingsFault::BadValue { key: Key::Devices }),
    }
}

/// The devices of the key `devices`, which has to be there.
pub fn device_list(alloc: Global, table: &Table) -> Result<Devices, SettingsFault>
    ensures { Gives (devices_of (value_of Key.Devices (table_view table.now))) result }
{
    match value_at(table, Key::Devices) {
        None => Err(SettingsFault::Missing { key: Key::Devices }),
        Some(value) => devices_in(alloc, value),
    }
}
