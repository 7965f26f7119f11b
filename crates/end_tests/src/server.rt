//! The settings of the server.
use crate::texts::{id_word, text_word, toml_of};
use end_settings::{DeviceSettings, Devices, ServerSettings, SettingsFault, read_server_settings};
use mos_fields::NoMemory;
use std::alloc::Global;
use std::test::Fail;

// The keys that have to be there.
const KEYS: &str =
    "ncs_id = \"ncs1\"\nlog = \"log\"\ndevices = [{ mos_id = \"m1\", host = \"h1\" }]";

// A text on each line, and behind the arrow what is read of it: ncs_id, log, the devices, upper, lower, editor and budget, or
// why it is refused.
const ROWS: &str = r#" -> Missing { key: NcsId }
# no key -> Missing { key: NcsId }
log = "log" -> Missing { key: NcsId }
ncs_id = "ncs1" -> Missing { key: Log }
ncs_id = "ncs1"|log = "log" -> Missing { key: Devices }
$ -> ncs1 log m1@h1:10541:10540 10541 10540 10560 1073741824
ncs_id = 1 -> BadValue { key: NcsId }
ncs_id = true -> BadValue { key: NcsId }
ncs_id = ["ncs1"] -> BadValue { key: NcsId }
ncs_id.id = "ncs1" -> BadValue { key: NcsId }
ncs_id = 2026-11-30 -> BadValue { key: NcsId }
ncs_id = "" -> BadValue { key: NcsId }
ncs_id = "%" -> Missing { key: Log }
ncs_id = "%x" -> BadValue { key: NcsId }
ncs_id = "a\u0001" -> BadValue { key: NcsId }
ncs_id = "\U0001F600\t" -> Missing { key: Log }
ncs_id = "ncs1"|log = "" -> BadValue { key: Log }
ncs_id = "ncs1"|log = 1 -> BadValue { key: Log }
ncs_id = "ncs1"|log = "\uFFFE" -> BadValue { key: Log }
ncs_id = "ncs1"|log = " " -> Missing { key: Devices }
ncs_id = "ncs1"|log = "%%%" -> Missing { key: Devices }
ncs_id = "ncs1"|log = "log"|devices = "m1" -> BadValue { key: Devices }
ncs_id = "ncs1"|log = "log"|devices = [] -> BadValue { key: Devices }
ncs_id = "ncs1"|log = "log"|devices = ["m1"] -> BadValue { key: Devices }
ncs_id = "ncs1"|log = "log"|devices = { mos_id = "m1", host = "h1" } -> BadValue { key: Devices }
ncs_id = "ncs1"|log = "log"|devices = [{}] -> Missing { key: DeviceMosId }
ncs_id = "ncs1"|log = "log"|devices = [{ host = "h1" }] -> Missing { key: DeviceMosId }
ncs_id = "ncs1"|log = "log"|devices = [{ mos_id = "m1" }] -> Missing { key: DeviceHost }
ncs_id = "ncs1"|log = "log"|devices = [{ mos_id = 1, host = 1 }] -> BadValue { key: DeviceMosId }
ncs_id = "ncs1"|log = "log"|devices = [{ mos_id = "" }] -> BadValue { key: DeviceMosId }
ncs_id = "ncs1"|log = "log"|devices = [{ mos_id = "%x" }] -> BadValue { key: DeviceMosId }
ncs_id = "ncs1"|log = "log"|devices = [{ mos_id = "%", host = "", upper = 0 }] -> BadValue { key: DeviceHost }
ncs_id = "ncs1"|log = "log"|devices = [{ mos_id = "m1", host = "h1", upper = 0, lower = 0 }] -> BadValue { key: DeviceUpper }
ncs_id = "ncs1"|log = "log"|devices = [{ mos_id = "m1", host = "h1", lower = 65536 }] -> BadValue { key: DeviceLower }
ncs_id = "ncs1"|log = "log"|devices = [{ mos_id = "m1", host = "h1", upper = 65535, lower = 1 }] -> ncs1 log m1@h1:65535:1 10541 10540 10560 1073741824
ncs_id = "ncs1"|log = "log"|devices = [{ mos_id = "m1", host = "h1" }, { mos_id = "m1" }] -> BadValue { key: DeviceMosId }
ncs_id = "ncs1"|log = "log"|devices = [{ mos_id = "m1" }, { mos_id = "m1" }] -> Missing { key: DeviceHost }
ncs_id = "ncs1"|log = "log"|devices = [{ mos_id = "m1", host = "h1" }, { mos_id = "M1", host = "h1" }] -> ncs1 log m1@h1:10541:10540 M1@h1:10541:10540 10541 10540 10560 1073741824
ncs_id = "ncs1"|log = "log"|[[devices]]|mos_id = "m2"|host = "h2"|upper = 2|[[devices]]|mos_id = "m1"|host = "h1"|lower = 3 -> ncs1 log m2@h2:2:10540 m1@h1:10541:3 10541 10540 10560 1073741824
upper = 0|devices = 0|log = 0|ncs_id = 0 -> BadValue { key: NcsId }
upper = 0|devices = 0|log = 0|ncs_id = "ncs1" -> BadValue { key: Log }
upper = 0|devices = 0|log = "log"|ncs_id = "ncs1" -> BadValue { key: Devices }
$|budget = 0|editor = 0|lower = 0|upper = 0 -> BadValue { key: Upper }
$|budget = 0|editor = 0|lower = 0|upper = 1 -> BadValue { key: Lower }
$|budget = 0|editor = 0|lower = 1 -> BadValue { key: Editor }
$|budget = 0|editor = 1 -> BadValue { key: Budget }
$|upper = 1|lower = 65535|editor = 80|budget = 1 -> ncs1 log m1@h1:10541:10540 1 65535 80 1
$|upper = 65535|lower = 1|editor = 65535|budget = 1099511627776 -> ncs1 log m1@h1:10541:10540 65535 1 65535 1099511627776
$|upper = 65536 -> BadValue { key: Upper }
$|upper = -1 -> BadValue { key: Upper }
$|upper = "80" -> BadValue { key: Upper }
$|upper = 80.0 -> BadValue { key: Upper }
$|lower = 65536 -> BadValue { key: Lower }
$|lower = [80] -> BadValue { key: Lower }
$|editor = 65536 -> BadValue { key: Editor }
$|editor = false -> BadValue { key: Editor }
$|budget = 1099511627777 -> BadValue { key: Budget }
$|budget = 9223372036854775807 -> BadValue { key: Budget }
$|budget = -9223372036854775808 -> BadValue { key: Budget }
$|budget = 9223372036854775808 -> NotToml
$|budget = "1" -> BadValue { key: Budget }
$|mos_id = 0|Upper = 0|other = [0]|[more]|upper = 0 -> ncs1 log m1@h1:10541:10540 10541 10540 10560 1073741824
ncs_id -> NotToml
ncs_id = -> NotToml
ncs_id = "ncs1 -> NotToml
ncs_id = ncs1 -> NotToml
$|upper = 1|upper = 1 -> NotToml
$|log = "log" -> NotToml
upper = 0|] -> NotToml
"#;

fn device_word(alloc: Global, device: &DeviceSettings) -> Result<String, NoMemory> {
    let mos_id = id_word(alloc, &device.mos_id)?;
    let host = text_word(alloc, &device.host)?;
    let upper = device.upper;
    let lower = device.lower;
    Ok(format!(in alloc; "{mos_id}@{host}:{upper}:{lower}")?)
}

fn push_devices(alloc: Global, words: &mut String, devices: &Devices) -> Result<(), NoMemory> {
    for place in 0..devices.len() {
        if let Some(device) = devices.get(place) {
            words.push(' ')?;
            words.push_str(device_word(alloc, device)?.as_str())?;
        }
    }
    Ok(())
}

fn server_words(alloc: Global, settings: &ServerSettings) -> Result<String, NoMemory> {
    let ncs_id = id_word(alloc, &settings.ncs_id)?;
    let log = text_word(alloc, &settings.log)?;
    let mut words = format!(in alloc; "{ncs_id} {log}")?;
    push_devices(alloc, &mut words, &settings.devices)?;
    let upper = settings.upper;
    let lower = settings.lower;
    let editor = settings.editor;
    let budget = settings.budget;
    let ports = format!(in alloc; " {upper} {lower} {editor} {budget}")?;
    words.push_str(ports.as_str())?;
    Ok(words)
}

// What is read of a text.
fn read(alloc: Global, text: &[u8]) -> Result<String, NoMemory> {
    match read_server_settings(alloc, text) {
        Ok(settings) => server_words(alloc, &settings),
        Err(fault) => Ok(format!(in alloc; "{fault:?}")?),
    }
}

#[test]
fn the_server_reads_its_settings_or_tells_the_first_fault(rt: HostRuntime) -> Result<(), Fail> {
    let alloc = rt.alloc();
    for row in ROWS.lines() {
        let (text, wanted) = row.split_once(" -> ").ok_or("no arrow")?;
        let text = toml_of(alloc, text, KEYS)?;
        assert_eq!(rt; read(alloc, text.as_bytes())?.as_str(), wanted, "{row}");
    }
    assert_eq!(rt;
        read(alloc, &[b'a', b'=', b'"', 0xFF, b'"'])?.as_str(),
        "NotToml"
    );
    Ok(())
}

// The settings of so many devices, m1, m2 and so on.
fn many(alloc: Global, count: u32) -> Result<String, NoMemory> {
    let mut text = String::from_str(alloc, "ncs_id = \"ncs1\"\nlog = \"log\"\n")?;
    for number in 1..=count {
        let table = format!(in alloc; "[[devices]]\nmos_id = \"m{number}\"\nhost = \"h\"\n")?;
        text.push_str(table.as_str())?;
    }
    Ok(text)
}

// How many devices are read, or why none are.
fn count_devices(alloc: Global, text: &str) -> Result<usize, SettingsFault> {
    let settings = read_server_settings(alloc, text.as_bytes())?;
    Ok(settings.devices.len())
}

#[test]
fn a_server_has_at_most_sixty_four_devices(rt: HostRuntime) -> Result<(), Fail> {
    let alloc = rt.alloc();
    let text = many(alloc, 64)?;
    assert_eq!(rt; count_devices(alloc, text.as_str()), Ok(64));
    let mut text = many(alloc, 63)?;
    text.push_str("[[devices]]\nmos_id = \"m1\"\nhost = \"h\"\n")?;
    let fault = read(alloc, text.as_bytes())?;
    assert_eq!(rt; fault.as_str(), "BadValue { key: DeviceMosId }");
    let text = many(alloc, 65)?;
    let fault = read(alloc, text.as_bytes())?;
    assert_eq!(rt; fault.as_str(), "BadValue { key: Devices }");
    Ok(())
}
