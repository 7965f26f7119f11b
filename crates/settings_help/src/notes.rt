//! What may be a mistake in settings that are allowed.
ghost use Rattle.std.specs.Prelude.{◌≡◌, ◌++◌, ◌+◌, ◌<◌, ◌^◌, IfOk, OnOk, string_bytes};
ghost use Rattle.mos_fields.specs.Fields.{same};
ghost use Rattle.settings_help.specs.Notes.{both_notes, budget_notes, device_notes, device_words, few_words, first_sharing as first_sharing_of, gate_notes_of, id_notes, names_server, pair_notes, port_notes, server_notes_of, share_ports as share_ports_of, shared_notes};

use crate::parts::{push_number, push_word};
use crate::place::{Place, push_place};
use end_settings::{DeviceSettings, GateSettings, ServerSettings};
use mos_fields::{Id, NoMemory, Text};
use std::alloc::Global;

// Appends the line on a budget of so few bytes.
fn push_few(alloc: Global, out: &mut String, file: &str, budget: u64) -> Result<(), NoMemory>
    ensures { OnOk result (string_bytes out.new ≡ string_bytes out.old ++ few_words file.now budget) }
{
    push_word(out, file)?;
    push_word(out, ": with a budget of ")?;
    push_number(alloc, out, budget)?;
    push_word(out, " bytes every connection will end with Budget\n")?;
    Ok(())
}

// Appends the line on a budget with which no connection goes on: fewer bytes than 1000 hold no exchange of heartbeats.
fn push_budget(alloc: Global, out: &mut String, file: &str, budget: u64) -> Result<(), NoMemory>
    ensures { OnOk result (string_bytes out.new ≡ string_bytes out.old ++ budget_notes file.now budget) }
{
    if budget < 1_000 {
        push_few(alloc, out, file, budget)
    } else {
        Ok(())
    }
}

// Appends the line on two ports of one machine that are the same.
fn push_pair(
    alloc: Global,
    out: &mut String,
    file: &str,
    words: &str,
    one: u16,
    other: u16,
) -> Result<(), NoMemory>
    ensures { OnOk result (string_bytes out.new ≡ string_bytes out.old ++ pair_notes file.now words.now one other) }
{
    if one != other {
        return Ok(());
    }
    push_word(out, file)?;
    push_word(out, ": ")?;
    push_word(out, words)?;
    push_word(out, " are one port, ")?;
    push_number(alloc, out, one.into())?;
    push_word(out, "\n")
}

// Appends the line on a gateway's ID that is the server's.
fn push_ids(out: &mut String, file: &str, mos_id: &Id, ncs_id: &Id) -> Result<(), NoMemory>
    ensures { OnOk result (string_bytes out.new ≡ string_bytes out.old ++ id_notes file.now (same mos_id.now ncs_id.now)) }
{
    if !are_same(mos_id.text(), ncs_id.text()) {
        return Ok(());
    }
    push_word(out, file)?;
    push_word(out, ": mos_id and ncs_id are one ID\n")
}

// Whether both texts are the same.
fn are_same(one: &Text, other: &Text) -> bool
    ensures { result ≡ same one.now other.now }
{
    one.is(other)
}

// Whether two devices have one host and a port in common.
fn share_ports(one: &DeviceSettings, other: &DeviceSettings) -> bool
    ensures { result ≡ share_ports_of one.now other.now }
{
    are_same(&one.host, &other.host)
        && (one.upper == other.upper
            || one.upper == other.lower
            || one.lower == other.upper
            || one.lower == other.lower)
}

// How many devices stand before the first that has this one's host and a port of it; all of them, where none has.
fn first_sharing(devices: &[DeviceSettings], device: &DeviceSettings) -> usize
    ensures { result ≡ first_sharing_of device.now devices.now }
{
    let mut before = 0;
    let mut rest = devices;
    while let [other, more @ ..] = rest {
        if share_ports(device, other) {
            return before;
        }
        before += 1;
        rest = more;
    }
    before
}

// Appends the beginning of the line on the device behind so many.
fn push_device(
    alloc: Global,
    out: &mut String,
    file: &str,
    before: u64,
    device: &DeviceSettings,
) -> Result<(), NoMemory>
    requires { before + 1 < 2 ^ 64 }
    ensures { OnOk result (string_bytes out.new ≡ string_bytes out.old ++ device_words file.now before device.now) }
{
    let name = device.mos_id.try_clone()?;
    let place = Place::Table {
        number: before + 1,
        name: name.into_text(),
    };
    push_word(out, file)?;
    push_place(alloc, out, &place)
}

// Appends the line on a device behind so many that has the host and a port of one before it.
fn push_shared(
    alloc: Global,
    out: &mut String,
    file: &str,
    devices: &[DeviceSettings],
    before: usize,
    device: &DeviceSettings,
) -> Result<(), NoMemory>
    requires { before + 1 < 2 ^ 64 }
    ensures { OnOk result (string_bytes out.new ≡ string_bytes out.old ++ shared_notes file.now devices.now before device.now) }
{
    let first = first_sharing(devices, device);
    if first >= before {
        return Ok(());
    }
    push_device(alloc, out, file, before as u64, device)?;
    push_word(out, ": it has the host and a port of table ")?;
    push_number(alloc, out, first as u64 + 1)?;
    push_word(out, "\n")
}

// Appends the line on a device behind so many whose ID is the server's.
fn push_named(
    alloc: Global,
    out: &mut String,
    file: &str,
    ncs_id: &Id,
    before: usize,
    device: &DeviceSettings,
) -> Result<(), NoMemory>
    requires { before + 1 < 2 ^ 64 }
    ensures { OnOk result (string_bytes out.new ≡ string_bytes out.old ++ names_server file.now ncs_id.now before device.now) }
{
    if !are_same(ncs_id.text(), device.mos_id.text()) {
        return Ok(());
    }
    push_device(alloc, out, file, before as u64, device)?;
    push_word(out, ": its mos_id is the ncs_id\n")
}

// Appends the lines on a device behind so many.
fn push_both(
    alloc: Global,
    out: &mut String,
    file: &str,
    ncs_id: &Id,
    devices: &[DeviceSettings],
    before: usize,
    device: &DeviceSettings,
) -> Result<(), NoMemory>
    requires { before + 1 < 2 ^ 64 }
    ensures { OnOk result (string_bytes out.new ≡ string_bytes out.old ++ both_notes file.now ncs_id.now devices.now before device.now) }
{
    push_named(alloc, out, file, ncs_id, before, device)?;
    push_shared(alloc, out, file, devices, before, device)?;
    Ok(())
}

// Appends the lines on devices.
fn push_devices(
    alloc: Global,
    out: &mut String,
    file: &str,
    ncs_id: &Id,
    devices: &[DeviceSettings],
) -> Result<(), NoMemory>
    ensures { OnOk result (string_bytes out.new ≡ string_bytes out.old ++ device_notes file.now ncs_id.now devices.now 0 devices.now) }
{
    let mut before = 0;
    let mut rest = devices;
    while let [device, more @ ..] = rest {
        push_both(alloc, out, file, ncs_id, devices, before, device)?;
        before += 1;
        rest = more;
    }
    Ok(())
}

// Appends the lines on the ports at which the server listens.
fn push_ports(
    alloc: Global,
    out: &mut String,
    file: &str,
    settings: &ServerSettings,
) -> Result<(), NoMemory>
    ensures { OnOk result (string_bytes out.new ≡ string_bytes out.old ++ port_notes file.now settings.now) }
{
    push_pair(
        alloc,
        out,
        file,
        "upper and lower",
        settings.upper,
        settings.lower,
    )?;
    push_pair(
        alloc,
        out,
        file,
        "upper and editor",
        settings.upper,
        settings.editor,
    )?;
    push_pair(
        alloc,
        out,
        file,
        "lower and editor",
        settings.lower,
        settings.editor,
    )?;
    Ok(())
}

/// A line, with a line feed, for each of these in a server's settings, which are allowed and hardly meant: two of the ports at
/// which it listens are one; a device has the server's ID; a device has the host and a port of one before it; a budget is under
/// 1000 bytes. The only error is that memory runs out.
pub fn server_notes(
    alloc: Global,
    file: &str,
    settings: &ServerSettings,
) -> Result<String, NoMemory>
    ensures { IfOk result (λ lines. string_bytes lines ≡ server_notes_of file.now settings.now) }
{
    let mut lines = String::new(alloc);
    push_ports(alloc, &mut lines, file, settings)?;
    push_devices(
        alloc,
        &mut lines,
        file,
        &settings.ncs_id,
        settings.devices.as_slice(),
    )?;
    push_budget(alloc, &mut lines, file, settings.budget)?;
    Ok(lines)
}

/// A line, with a line feed, for each of these in a gateway's settings, which are allowed and hardly meant: its ID is the
/// server's; the two ports at which it listens are one; the server's two ports are one; a budget is under 1000 bytes. The only
/// error is that memory runs out.
pub fn gate_notes(alloc: Global, file: &str, settings: &GateSettings) -> Result<String, NoMemory>
    ensures { IfOk result (λ lines. string_bytes lines ≡ gate_notes_of file.now settings.now) }
{
    let mut lines = String::new(alloc);
    push_ids(&mut lines, file, &settings.mos_id, &settings.ncs_id)?;
    push_pair(
        alloc,
        &mut lines,
        file,
        "upper and lower",
        settings.upper,
        settings.lower,
    )?;
    push_pair(
        alloc,
        &mut lines,
        file,
        "server_upper and server_lower",
        settings.server_upper,
        settings.server_lower,
    )?;
    push_budget(alloc, &mut lines, file, settings.budget)?;
    Ok(lines)
}
