//! A program for editors. `edit_orders HOST:PORT NCS_ID` gives the edits on standard input to a newsroom system's server, one by
//! one, and prints each answer; `edit_orders HOST:PORT NCS_ID FILE` gives the messages in a file.
#![tactic(auto)]

use edit_console::{Hinted, Prompted};
use edit_program::{
    FORMS, about, check_words, last_file_words, last_words, message_words, option_in, run_editor,
    run_file,
};
use edit_runs::EditStatus;
use line_texts::refused_line;
use message_runs::MessageEnd;
use mos_fields::NoMemory;
use mos_io::{Sink, Source, StdSink, StdSource};
use port_events::Side;
use port_links::Dialer;
use port_tcp::{Common, TcpDialer};
use std::io::{ErrorKind, IsTerminal, Lock};
use std::net::{Net, TcpStream};
use std::process::ExitCode;
use std::rt::Files;
use std::sync::{Arc, Wait};
use std::time::{Clock, Duration};
use std::{env, fs};

/// So long an answer is awaited without a byte from the server, in seconds.
const PATIENCE: u64 = 30;

/// The words behind the program's name. One that isn't UTF-8 is no word here.
fn arguments(rt: &HostRuntime) -> Result<Vec<String>, EditStatus> {
    match env::args(rt) {
        Ok(args) => match args.skip(1).collect(rt.alloc()) {
            Ok(words) => Ok(words),
            Err(_) => Err(EditStatus::NoMemory),
        },
        Err(fault) if fault.kind() == ErrorKind::InvalidData => Err(EditStatus::Usage),
        Err(_) => Err(EditStatus::NoMemory),
    }
}

/// Prints a text.
fn print_text(rt: &HostRuntime, text: &str) -> EditStatus {
    match print!(rt; "{text}") {
        Ok(()) => EditStatus::Done,
        Err(_) => EditStatus::WriteFault,
    }
}

/// Says on standard error why a run ended, where there is something to say, and there was memory for it.
fn say(rt: &HostRuntime, text: Result<Option<String>, NoMemory>) {
    if let Ok(Some(text)) = text {
        let _ = eprintln!(rt; "{text}");
    }
}

/// What opens the connection to the server. A server that is silent for longer is given up.
fn dialer_of<R: Net<Stream = TcpStream> + Clock + Wait + Eprint + AllocGlobal + Copy + Drop>(
    rt: &R,
) -> Result<TcpDialer<R>, EditStatus> {
    let Ok(common) = Arc::new(rt.alloc(), Common::new(1)) else {
        return Err(EditStatus::NoMemory);
    };
    let patience = Duration::from_secs(PATIENCE);
    match TcpDialer::new(*rt, rt.alloc(), Side::Editor, common, Some(patience)) {
        Ok(dialer) => Ok(dialer),
        Err(_) => Err(EditStatus::NoMemory),
    }
}

/// What is said of an answer `NOT FOR ME`.
fn hint_of(rt: &HostRuntime, words: &[String]) -> Result<String, NoMemory> {
    match words {
        [place, id] => Ok(format!(in rt.alloc();
            "the server at {place} isn't {id}: use the ncs_id of its settings\n"
        )?),
        _ => Ok(String::new(rt.alloc())),
    }
}

/// A run of the lines of a source.
fn run_source<
    R: Net<Stream = TcpStream> + Clock + Wait + Eprint + AllocGlobal + Copy + Drop,
    S: Source,
>(rt: &R, host: &HostRuntime, words: &[String], source: &mut S) -> EditStatus {
    let Ok(hint) = hint_of(host, words) else {
        return EditStatus::NoMemory;
    };
    match dialer_of(rt) {
        Ok(mut dialer) => {
            let mut out = Hinted::new(StdSink::new(host.stdout().lock()), *rt, hint);
            let mut notes = StdSink::new(host.stderr().lock());
            run_editor(rt, words, &mut dialer, source, &mut out, &mut notes)
        }
        Err(status) => status,
    }
}

/// A run of the lines on standard input. At a terminal each is prompted for.
fn run_lines<R: Net<Stream = TcpStream> + Clock + Wait + Eprint + AllocGlobal + Copy + Drop>(
    rt: &R,
    host: &HostRuntime,
    words: &[String],
) -> EditStatus {
    let input = host.stdin().lock();
    let is_terminal = input.is_terminal();
    let mut source = StdSource::new(input);
    if is_terminal {
        let mut prompted = Prompted::new(source, *rt, FORMS);
        run_source(rt, host, words, &mut prompted)
    } else {
        run_source(rt, host, words, &mut source)
    }
}

/// A run of the messages in the file at this path, which is opened before the connection.
fn run_path<R: Files + AllocGlobal + Wait, D: Dialer, K: Sink>(
    rt: &R,
    words: &[String],
    path: &str,
    dialer: &mut D,
    out: &mut K,
) -> Result<MessageEnd, EditStatus>
where
    R::File: Drop,
{
    match check_words(rt.alloc(), words) {
        Err(status) => Err(status),
        Ok(()) => match fs::open(rt, path) {
            Ok(file) => {
                let mut source = StdSource::new(file);
                run_file(rt, words, dialer, &mut source, out)
            }
            Err(fault) if fault.kind() == ErrorKind::OutOfMemory => Err(EditStatus::NoMemory),
            Err(_) => Err(EditStatus::ReadFault),
        },
    }
}

/// A run of the messages in the file at this path, of which standard output is told.
fn give_path<
    R: Files + Net<Stream = TcpStream> + Clock + Wait + Eprint + AllocGlobal + Copy + Drop,
>(rt: &R, host: &HostRuntime, words: &[String], path: &str) -> Result<MessageEnd, EditStatus>
where
    R::File: Drop,
{
    match dialer_of(rt) {
        Ok(mut dialer) => {
            let mut out = StdSink::new(host.stdout().lock());
            run_path(rt, words, path, &mut dialer, &mut out)
        }
        Err(status) => Err(status),
    }
}

/// Says why a run of a file over a connection ended. Where the file isn't whole messages to its end, the line says where.
fn say_end(rt: &HostRuntime, end: MessageEnd) {
    if let MessageEnd::Rejected { place, kind } = end {
        if let Ok(line) = refused_line(rt.alloc(), place as usize, kind) {
            let _ = eprint!(rt; "{line}");
        }
    }
    if let Some(text) = message_words(end) {
        let _ = eprintln!(rt; "{text}");
    }
}

/// The status of a run with a file, of which standard error is told.
fn file_status(
    rt: &HostRuntime,
    words: &[String],
    ran: Result<MessageEnd, EditStatus>,
) -> EditStatus {
    match ran {
        Ok(end) => {
            say_end(rt, end);
            end.status()
        }
        Err(status) => {
            say(rt, last_file_words(rt.alloc(), words, status));
            status
        }
    }
}

/// What the program comes to with these words.
fn run_words<R: Net<Stream = TcpStream> + Clock + Wait + Eprint + AllocGlobal + Copy + Drop>(
    rt: &R,
    host: &HostRuntime,
    words: &[String],
) -> EditStatus {
    if let Some(text) = about(words) {
        return print_text(host, text);
    }
    if option_in(words).is_some() {
        return EditStatus::Usage;
    }
    run_lines(rt, host, words)
}

fn main(rt: HostRuntime) -> ExitCode {
    let words = match arguments(&rt) {
        Ok(words) => words,
        Err(status) => {
            say(&rt, last_words(rt.alloc(), &[], status));
            return ExitCode::from(status.number());
        }
    };
    let status = match words.as_slice() {
        [_, _, path] if option_in(&words).is_none() => {
            let ran = give_path(&rt, &rt, &words, path.as_str());
            file_status(&rt, &words, ran)
        }
        _ => {
            let status = run_words(&rt, &rt, &words);
            say(&rt, last_words(rt.alloc(), &words, status));
            status
        }
    };
    ExitCode::from(status.number())
}
