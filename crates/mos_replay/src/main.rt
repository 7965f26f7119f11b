//! Shows, checks and replays the traffic of MOS messages. `mos_replay show` and `mos_replay check` list and count the
//! messages on standard input, `mos_replay take` answers them as a device does, `mos_replay replay` plays a script of edits,
//! deliveries, cuts and restarts, and `mos_replay make N` plays one that it makes.
#![tactic(auto)]

mod hints;

use crate::hints::{input_hint, is_reader, is_word, words_hint};
use input_looks::Noted;
use mos_io::{Capped, StdSink, StdSource};
use replay_commands::{USAGE, about};
use std::env;
use std::io::{ErrorKind, Lock};
use std::process::ExitCode;
use stream_commands::Status;
use world_commands::run_in_memory;

/// The most bytes that a run reads. It ends with a fault of reading where there are as many.
const MOST: u64 = 1_073_741_824;

/// Says on standard error what the input may be, where it was rejected.
fn say_input(rt: &HostRuntime, words: &[String], status: Status, first: &[u8]) {
    if status == Status::Refused {
        if let Some(hint) = input_hint(words, first) {
            let _ = eprintln!(rt; "{hint}");
        }
    }
}

/// A run with the words behind the program's name, on the standard streams and a new stage.
fn run_with(rt: &HostRuntime, words: &[String]) -> Status {
    let capped = Capped::new(StdSource::new(rt.stdin().lock()), MOST);
    let mut source = Noted::new(capped);
    let mut sink = StdSink::new(rt.stdout().lock());
    let status = run_in_memory(rt.alloc(), words, &mut source, &mut sink);
    say_input(rt, words, status, source.first());
    status
}

/// The words behind the program's name. One that isn't UTF-8 is no word of a command.
fn arguments(rt: &HostRuntime) -> Result<Vec<String>, Status> {
    match env::args(rt) {
        Ok(args) => match args.skip(1).collect(rt.alloc()) {
            Ok(words) => Ok(words),
            Err(_) => Err(Status::NoMemory),
        },
        Err(fault) if fault.kind() == ErrorKind::InvalidData => Err(Status::Usage),
        Err(_) => Err(Status::NoMemory),
    }
}

/// Prints a text.
fn print_text(rt: &HostRuntime, text: &str) -> Status {
    match print!(rt; "{text}") {
        Ok(()) => Status::Done,
        Err(_) => Status::WriteFault,
    }
}

/// Says on standard error what is wrong with words that are no command.
fn say_usage(rt: &HostRuntime, words: &[String]) {
    if let [word, last @ ..] = words {
        let hint = words_hint(word.as_str());
        match last {
            [second, ..] if is_reader(word.as_str()) => {
                let _ = eprintln!(rt; "{word} {hint}: mos_replay {word} <{second}");
            }
            _ => {
                let _ = eprintln!(rt; "{word} {hint}");
            }
        }
    }
    let _ = eprintln!(rt; "{USAGE}");
}

/// What is printed for words that ask about the program, or about one of its words, if they do.
fn text_for(words: &[String]) -> Option<&'static str> {
    match words {
        [first, last @ ..] if is_word(first.as_str()) => about(last),
        _ => about(words),
    }
}

fn main(rt: HostRuntime) -> ExitCode {
    let status = match arguments(&rt) {
        Ok(words) => match text_for(&words) {
            Some(text) => print_text(&rt, text),
            None => {
                let status = run_with(&rt, words.as_slice());
                if status == Status::Usage {
                    say_usage(&rt, &words);
                }
                status
            }
        },
        Err(status) => {
            if status == Status::Usage {
                let _ = eprintln!(rt; "{USAGE}");
            }
            status
        }
    };
    ExitCode::from(status.number())
}
