//! The settings of a server.
ghost use Rattle.std.specs.Prelude.{◌≡◌, IfErr, IfOk};
ghost use Rattle.end_settings.specs.Devices.{AreDevices};
ghost use Rattle.program_ends.specs.Ends.{IsNoSettings};

use end_settings::{
    ServerSettings, SettingsFault, read_document, read_listen, read_server_settings,
};
use program_ends::{FileOf, ProgramEnd, Why, read_file};
use settings_help::{Program, explain, server_notes, unknown_lines};
use std::alloc::Global;
use std::net::IpAddr;

/// The settings, and the address that all ports listen at.
#[derive(Drop)]
pub(crate) struct Given {
    pub(crate) settings: ServerSettings,
    pub(crate) listen: IpAddr,
}

// The settings in a text.
fn given_in(alloc: Global, text: &[u8]) -> Result<Given, SettingsFault>
    ensures { IfOk result (λ g. AreDevices g.settings.devices) }
{
    let settings = read_server_settings(alloc, text)?;
    let listen = read_listen(alloc, text)?;
    Ok(Given { settings, listen })
}

// Says what may be a mistake.
fn say_notes(rt: &HostRuntime, path: &str, text: &[u8], settings: &ServerSettings) {
    let alloc = rt.alloc();
    if let Ok(table) = read_document(alloc, text)
        && let Ok(lines) = unknown_lines(alloc, path, Program::Server, &table)
    {
        let _ = eprint!(rt; "{lines}");
    }
    if let Ok(lines) = server_notes(alloc, path, settings) {
        let _ = eprint!(rt; "{lines}");
    }
}

/// The settings in a file. What may be a mistake is said on standard error; why there are none stands in `why`.
#[tactic(auto, using(program_ends::proofs::RunEnds::unread_settings, program_ends::proofs::RunEnds::refused_settings))]
pub(crate) fn settings_in(rt: &HostRuntime, path: &str, why: &mut Why) -> Result<Given, ProgramEnd>
    ensures devices { IfOk result (λ g. AreDevices g.settings.devices) }
    ensures fault { IfErr result (λ end. IsNoSettings end) }
{
    let text = match read_file(rt, path, FileOf::Settings, why) {
        Ok(text) => text,
        Err(end) => return Err(end),
    };
    match given_in(rt.alloc(), &text) {
        Ok(given) => {
            say_notes(rt, path, &text, &given.settings);
            Ok(given)
        }
        Err(fault) => {
            why.tell(explain(rt.alloc(), path, &text, fault));
            Err(ProgramEnd::of_settings(fault))
        }
    }
}
