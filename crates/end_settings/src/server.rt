//! The settings of `ncs_server`.
ghost use Rattle.std.specs.Prelude.{◌≡◌, IfOk};
ghost use Rattle.toml.specs.View.{table_view};
ghost use Rattle.end_settings.specs.Devices.{AreDevices};
ghost use Rattle.end_settings.specs.Ends.{server_in, server_of, server_with};
ghost use Rattle.end_settings.specs.Given.{Gives, made};

use crate::devices::{Devices, device_list};
use crate::document::read_document;
use crate::fault::SettingsFault;
use crate::given::triple_given;
use crate::key::Key;
use crate::values::{budget, port, required_id, required_text};
use mos_fields::{Id, Text};
use std::alloc::Global;
use toml::Table;

/// The settings of `ncs_server`: a field for each key, which has the default where the text lacks the key.
#[derive(Drop)]
pub struct ServerSettings {
    /// The newsroom system's ID.
    pub ncs_id: Id,
    /// The path of the file of entries.
    pub log: Text,
    /// The devices, 1 to 64, with distinct IDs.
    pub devices: Devices,
    /// The port for running order messages at which the server listens; 10541 unless given.
    pub upper: u16,
    /// The port for media object messages at which the server listens; 10540 unless given.
    pub lower: u16,
    /// The port for editors at which the server listens; 10560 unless given.
    pub editor: u16,
    /// How many bytes of one connection are read; 1073741824 unless given.
    pub budget: u64,
}

/// The settings of these parts.
fn server_from(
    parts: Result<((Id, Text, Devices), (u16, u16, u16), u64), SettingsFault>,
) -> Result<ServerSettings, SettingsFault>
    ensures { result ≡ made server_with parts }
{
    match parts {
        Ok(((ncs_id, log, devices), (upper, lower, editor), budget)) => Ok(ServerSettings {
            ncs_id,
            log,
            devices,
            upper,
            lower,
            editor,
            budget,
        }),
        Err(fault) => Err(fault),
    }
}

/// The server's settings in a table.
fn server_settings_of(alloc: Global, table: &Table) -> Result<ServerSettings, SettingsFault>
    ensures { Gives (server_of (table_view table.now)) result }
{
    let ncs_id = required_id(alloc, table, Key::NcsId);
    let log = required_text(alloc, table, Key::Log);
    let devices = device_list(alloc, table);
    let upper = port(table, Key::Upper, 10_541);
    let lower = port(table, Key::Lower, 10_540);
    let editor = port(table, Key::Editor, 10_560);
    let budget = budget(table, Key::Budget, 1_073_741_824);
    server_from(triple_given(
        triple_given(ncs_id, log, devices),
        triple_given(upper, lower, editor),
        budget,
    ))
}

/// The server's settings in a TOML text.
///
/// `NotToml` comes exactly where the text is no TOML in UTF-8. Else `Missing` or `BadValue` comes exactly at the first key
/// that is required and lacking, or whose value isn't allowed, in the order `ncs_id`, `log`, `devices`, and in its tables,
/// one after the other, `mos_id`, `host`, `upper`, `lower`; then `upper`, `lower`, `editor`, `budget`. IDs have 1 to 128
/// characters, a host and a path at least one, all of them such as XML 1.0 allows. `devices` is an array of 1 to 64 tables;
/// a `mos_id` that an earlier table has isn't allowed. Ports are 1 to 65535, a budget is 1 to 1099511627776. Other keys are
/// read over.
pub fn read_server_settings(alloc: Global, text: &[u8]) -> Result<ServerSettings, SettingsFault>
    ensures settings { Gives (server_in text.now) result }
    ensures devices { IfOk result (λ s. AreDevices s.devices) }
{
    let table = read_document(alloc, text)?;
    server_settings_of(alloc, &table)
}
