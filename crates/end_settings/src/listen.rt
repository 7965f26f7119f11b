//! The address that a program listens at.
ghost use Rattle.std.specs.Prelude.{◌≡◌, IfErr, IfOk};
ghost use Rattle.toml.specs.View.{table_view};
ghost use Rattle.end_settings.specs.Ends.{table_in};
ghost use Rattle.end_settings.specs.Listen.{HasListen, IsListenAt, LacksListen, NoListenAt};
ghost use Rattle.end_settings.specs.Values.{value_of};
ghost use Rattle.end_settings.specs.declared.fault.SettingsFault.TheVariants.{BadValue, NoMemory as out_of_memory};
ghost use Rattle.end_settings.specs.declared.key.Key.TheVariants.{Listen};

use crate::document::read_document;
use crate::fault::SettingsFault;
use crate::key::Key;
use crate::values::value_at;
use std::alloc::Global;
use std::net::{IpAddr, Ipv4Addr};
use toml::Table;

/// The address in a table.
fn listen_of(table: &Table) -> Result<IpAddr, SettingsFault>
    ensures address { IfOk result (λ ip. IsListenAt (value_of Listen (table_view table.now)) ip) }
    ensures fault { IfErr result (λ f. (f ≡ BadValue Listen) × NoListenAt (value_of Listen (table_view table.now))) }
{
    match value_at(table, Key::Listen) {
        None => Ok(IpAddr::V4(Ipv4Addr::UNSPECIFIED)),
        Some(value) => match value.as_str() {
            None => Err(SettingsFault::BadValue { key: Key::Listen }),
            Some(text) => match text.parse::<IpAddr>() {
                Ok(address) => Ok(address),
                Err(_) => Err(SettingsFault::BadValue { key: Key::Listen }),
            },
        },
    }
}

/// The address that a program listens at by the key `listen` of a TOML text, which may be lacking: an address of version 4
/// or 6 in numbers. Without the key it is `0.0.0.0`, every address of version 4 that the machine has.
///
/// `NotToml` comes exactly where the text is no TOML in UTF-8, `BadValue` of `listen` exactly where the key has a value that
/// spells no address.
pub fn read_listen(alloc: Global, text: &[u8]) -> Result<IpAddr, SettingsFault>
    ensures address { IfOk result (λ ip. HasListen (table_in text.now) ip) }
    ensures fault { IfErr result (λ f. ¬ (f ≡ out_of_memory) → LacksListen (table_in text.now) f) }
{
    let table = read_document(alloc, text)?;
    listen_of(&table)
}
