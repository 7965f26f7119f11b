//! A look at settings and journal, which changes nothing and listens nowhere.
ghost use Rattle.std.specs.Prelude.{◌≡◌, ◌≤◌, IfErr, IfOk, length};
ghost use Rattle.end_settings.specs.Devices.{AreDevices};
ghost use Rattle.program_ends.specs.Ends.{IsServerRunEnd};

use crate::settings::settings_in;
use end_settings::ServerSettings;
use journal_check::{JournalFound, check_journal};
use ncs_core::StartCause;
use program_ends::{FileOf, ProgramEnd, Why, path_of};
use std::fs;
use std::io::ErrorKind;

// The end of a start that fails so.
fn end_of(cause: StartCause) -> ProgramEnd
    ensures { IsServerRunEnd result }
{
    match cause {
        StartCause::StoreFault => ProgramEnd::StoreFault,
        StartCause::BadEntry { number } => ProgramEnd::BadEntry { number },
        StartCause::NoMemory => ProgramEnd::NoMemory,
    }
}

// The bytes of the journal, or nothing where there is none yet.
fn bytes_of(rt: &HostRuntime, path: &str, why: &mut Why) -> Result<Option<Vec<u8>>, ProgramEnd>
    ensures { IfErr result (λ end. IsServerRunEnd end) }
{
    match fs::read(rt, path) {
        Ok(bytes) => Ok(Some(bytes)),
        Err(fault) if fault.kind() == ErrorKind::NotFound => Ok(None),
        Err(fault) if fault.kind() == ErrorKind::OutOfMemory => Err(ProgramEnd::NoMemory),
        Err(fault) => {
            why.tell_file(rt.alloc(), FileOf::Log, path, fault.kind());
            Err(ProgramEnd::NoFile(FileOf::Log))
        }
    }
}

// The ending of a word for so many.
fn ending(count: u64) -> &'static str {
    if count == 1 { "" } else { "s" }
}

// The word for so many entries.
fn entry_word(count: u64) -> &'static str {
    if count == 1 { "entry" } else { "entries" }
}

// Says what was found.
fn say_found(rt: &HostRuntime, path: &str, log: &str, devices: usize, found: JournalFound) {
    let (orders, entries, rest) = (found.orders, found.entries, found.rest);
    let (of_devices, of_orders) = (ending(devices as u64), ending(orders));
    let of_entries = entry_word(entries);
    let _ = println!(rt;
        "{path}: {devices} device{of_devices}, {orders} order{of_orders}, {entries} {of_entries} in {log}"
    );
    if rest > 0 {
        let _ = println!(rt;
            "{log}: {rest} bytes behind the last entry are no whole entry; a start takes them off"
        );
    }
}

// Says that there is no journal yet.
fn say_none(rt: &HostRuntime, path: &str, log: &str, devices: usize) {
    let of_devices = ending(devices as u64);
    let _ = println!(rt;
        "{path}: {devices} device{of_devices}; there is no journal {log} yet, a start makes it"
    );
}

// Looks at the journal at this path.
fn check_log(
    rt: &HostRuntime,
    path: &str,
    log: &str,
    settings: &ServerSettings,
    why: &mut Why,
) -> Result<(), ProgramEnd>
    requires { AreDevices settings.now.devices }
    ensures { IfErr result (λ end. IsServerRunEnd end) }
{
    let devices = settings.devices.len();
    let bytes = match bytes_of(rt, log, why) {
        Ok(Some(bytes)) => bytes,
        Ok(None) => {
            say_none(rt, path, log, devices);
            return Ok(());
        }
        Err(end) => return Err(end),
    };
    match check_journal(rt.alloc(), &bytes, devices as u32) {
        Ok(found) => {
            say_found(rt, path, log, devices, found);
            Ok(())
        }
        Err(cause) => Err(end_of(cause)),
    }
}

/// Looks at the settings in this file and at their journal, and says on standard output what is there. Else it tells how the
/// program would end. Nothing is made, changed or listened at.
#[tactic(auto, using(program_ends::proofs::RunEnds::server_settings))]
pub(crate) fn check_server(rt: &HostRuntime, path: &str, why: &mut Why) -> Result<(), ProgramEnd>
    ensures { IfErr result (λ end. IsServerRunEnd end) }
{
    let given = match settings_in(rt, path, why) {
        Ok(given) => given,
        Err(end) => return Err(end),
    };
    let Ok(log) = path_of(rt.alloc(), &given.settings.log) else {
        return Err(ProgramEnd::NoMemory);
    };
    check_log(rt, path, log.as_str(), &given.settings, why)
}
