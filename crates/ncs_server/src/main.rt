//! A newsroom system's server. `ncs_server FILE` reads its settings from the file, loads its journal, listens at its ports and
//! dials its devices; `ncs_server --check FILE` looks at the settings and the journal alone.
#![tactic(auto)]

mod checking;
mod journal;
mod outside;
mod ports;
mod running;
mod settings;
mod texts;

use crate::checking::check_server;
use crate::running::run_server;
use crate::texts::{Asked, USAGE, asked_for};
use program_ends::{ProgramEnd, Why};
use std::env;
use std::io::ErrorKind;
use std::process::ExitCode;

/// The words behind the program's name. One that isn't UTF-8 is no path here.
fn arguments(rt: &HostRuntime) -> Result<Vec<String>, ProgramEnd> {
    match env::args(rt) {
        Ok(args) => match args.skip(1).collect(rt.alloc()) {
            Ok(words) => Ok(words),
            Err(_) => Err(ProgramEnd::NoMemory),
        },
        Err(fault) if fault.kind() == ErrorKind::InvalidData => Err(ProgramEnd::Usage),
        Err(_) => Err(ProgramEnd::NoMemory),
    }
}

/// Says how the program ended.
fn said(rt: &HostRuntime, end: ProgramEnd, why: &Why) -> ExitCode {
    match (end, why.line()) {
        (ProgramEnd::Usage, _) => {
            let _ = eprintln!(rt; "{USAGE}");
        }
        (_, Some(line)) => {
            let _ = eprintln!(rt; "{line}");
        }
        (_, None) => {
            let _ = eprintln!(rt; "{end}");
        }
    }
    ExitCode::from(end.status())
}

/// Looks at the settings in a file, and says how that ended.
fn checked(rt: &HostRuntime, path: &str) -> ExitCode {
    let mut why = Why::new();
    match check_server(rt, path, &mut why) {
        Ok(()) => ExitCode::SUCCESS,
        Err(end) => said(rt, end, &why),
    }
}

fn main(rt: HostRuntime) -> ExitCode {
    let words = match arguments(&rt) {
        Ok(words) => words,
        Err(end) => return said(&rt, end, &Why::new()),
    };
    match asked_for(&words) {
        Asked::About(text) => {
            let _ = print!(rt; "{text}");
            ExitCode::SUCCESS
        }
        Asked::Check(path) => checked(&rt, path),
        Asked::Run => {
            let mut why = Why::new();
            let end = run_server(rt, rt, &words, &mut why);
            said(&rt, end, &why)
        }
        Asked::Usage => said(&rt, ProgramEnd::Usage, &Why::new()),
    }
}
