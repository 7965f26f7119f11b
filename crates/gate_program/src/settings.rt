//! The settings of a gateway.
ghost use Rattle.std.specs.Prelude.{◌≡◌, IfErr};
ghost use Rattle.program_ends.specs.Ends.{IsNoSettings};

use end_settings::{GateSettings, SettingsFault, read_document, read_gate_settings, read_listen};
use program_ends::{FileOf, ProgramEnd, Why, read_file};
use settings_help::{Program, explain, gate_notes, unknown_lines};
use std::alloc::Global;
use std::net::IpAddr;
use std::rt::Files;

/// The settings, and the address that both ports listen at.
#[derive(Drop)]
pub(crate) struct Given {
    pub(crate) settings: GateSettings,
    pub(crate) listen: IpAddr,
}

// The settings in a text.
fn given_in(alloc: Global, text: &[u8]) -> Result<Given, SettingsFault> {
    let settings = read_gate_settings(alloc, text)?;
    let listen = read_listen(alloc, text)?;
    Ok(Given { settings, listen })
}

// Says what may be a mistake.
fn say_notes<R: AllocGlobal + Eprint>(rt: &R, path: &str, text: &[u8], settings: &GateSettings) {
    let alloc = rt.alloc();
    if let Ok(table) = read_document(alloc, text)
        && let Ok(lines) = unknown_lines(alloc, path, Program::Gateway, &table)
    {
        let _ = eprint!(rt; "{lines}");
    }
    if let Ok(lines) = gate_notes(alloc, path, settings) {
        let _ = eprint!(rt; "{lines}");
    }
}

/// The settings in a file. What may be a mistake is said on standard error; why there are none stands in `why`.
#[tactic(auto, using(program_ends::proofs::RunEnds::unread_settings, program_ends::proofs::RunEnds::refused_settings))]
pub(crate) fn settings_in<R: Files + AllocGlobal + Eprint>(
    rt: &R,
    path: &str,
    why: &mut Why,
) -> Result<Given, ProgramEnd>
    ensures { IfErr result (λ end. IsNoSettings end) }
{
    let text = match read_file(rt, path, FileOf::Settings, why) {
        Ok(text) => text,
        Err(end) => return Err(end),
    };
    match given_in(rt.alloc(), &text) {
        Ok(given) => {
            say_notes(rt, path, &text, &given.settings);
            Ok(given)
        }
        Err(fault) => {
            why.tell(explain(rt.alloc(), path, &text, fault));
            Err(ProgramEnd::of_settings(fault))
        }
    }
}
