//! A run of the gateway.
ghost use Rattle.std.specs.Prelude.{◌≡◌, ◌≢◌, ◌<◌, ◌^◌, length};
ghost use Rattle.program_ends.specs.Ends.{IsGateRunEnd};
ghost use Rattle.program_ends.specs.declared.program_end.ProgramEnd.TheVariants.{Usage};

use crate::objects::objects_of;
use crate::ports::ports_of;
use crate::settings::{Given, settings_in};
use deck_rack::Deck;
use gate_serving::gate_serve_by_threads;
use port_tcp::{Common, SystemClock};
use program_ends::{ProgramEnd, Why, dialer, pacer};
use settings_help::gate_start_line;
use stamped_lines::say;
use std::net::{Net, TcpListener, TcpStream};
use std::rt::Files;
use std::sync::{Arc, Wait};
use std::thread::Threads;
use std::time::Clock;

// Says that the gateway starts to serve, with so many objects.
fn say_start<R: AllocGlobal + Clock + Eprint>(rt: &R, given: &Given, objects: usize) {
    if let Ok(mut line) = gate_start_line(rt.alloc(), &given.settings, given.listen, objects) {
        if line.push('\n').is_ok() {
            say(rt, rt.alloc(), false, Ok(line));
        }
    }
}

// Serves by these settings.
#[tactic(auto, using(program_ends::proofs::RunEnds::gate_objects, program_ends::proofs::RunEnds::gate_served))]
fn serve<
    R: Files
        + AllocGlobal
        + Net<Listener = TcpListener, Stream = TcpStream>
        + Clock
        + Threads
        + Wait
        + Eprint
        + Copy
        + Drop
        + Send
        + Sync
        + 'static,
    De: Deck + Send + 'static,
>(rt: R, given: &Given, decks: Vec<De>, why: &mut Why) -> ProgramEnd
where
    R::File: Drop,
    requires { length decks.items < 2 ^ 32 }
    ensures { IsGateRunEnd result }
{
    let alloc = rt.alloc();
    let objects = match objects_of(&rt, &given.settings, why) {
        Ok(objects) => objects,
        Err(end) => return end,
    };
    let Ok(common) = Arc::new(alloc, Common::at_address(1, given.listen)) else {
        return ProgramEnd::NoMemory;
    };
    let listeners = match ports_of(rt, given, &common, why) {
        Ok(listeners) => listeners,
        Err(end) => return end,
    };
    let (Ok(pacing), Ok(dialing)) = (Arc::try_clone(&common), Arc::try_clone(&common)) else {
        return ProgramEnd::NoMemory;
    };
    let Ok(dialer) = dialer(rt, alloc, dialing) else {
        return ProgramEnd::NoMemory;
    };
    let clock = SystemClock::new(rt);
    say_start(&rt, given, objects.len());
    let (end, _listeners) = gate_serve_by_threads(
        &rt,
        alloc,
        &given.settings,
        objects,
        decks,
        listeners,
        dialer,
        pacer(rt, pacing),
        clock,
    );
    ProgramEnd::of_serving(end)
}

// A run with the settings in a file.
#[tactic(auto, using(program_ends::proofs::RunEnds::gate_settings))]
fn run_with<
    R: Files
        + AllocGlobal
        + Net<Listener = TcpListener, Stream = TcpStream>
        + Clock
        + Threads
        + Wait
        + Eprint
        + Copy
        + Drop
        + Send
        + Sync
        + 'static,
    De: Deck + Send + 'static,
>(rt: R, path: &str, decks: Vec<De>, why: &mut Why) -> ProgramEnd
where
    R::File: Drop,
    requires { length decks.items < 2 ^ 32 }
    ensures { IsGateRunEnd result }
{
    match settings_in(&rt, path, why) {
        Ok(given) => serve(rt, &given, decks, why),
        Err(end) => end,
    }
}

/// Runs the gateway with these decks, fewer than 2^32, and with the words behind the program's name: the path of its settings.
///
/// `Usage` comes exactly where these words aren't one. What else isn't as it should be is looked for in this order: the
/// settings' file, the settings, the objects, the ports. Memory may run out at each. Where there is more to say of why it ended,
/// `why` has the line.
pub fn run_gateway<
    R: Files
        + AllocGlobal
        + Net<Listener = TcpListener, Stream = TcpStream>
        + Clock
        + Threads
        + Wait
        + Eprint
        + Copy
        + Drop
        + Send
        + Sync
        + 'static,
    De: Deck + Send + 'static,
>(rt: R, words: &[String], decks: Vec<De>, why: &mut Why) -> ProgramEnd
where
    R::File: Drop,
    requires { length decks.items < 2 ^ 32 }
    ensures usage { length words.now ≢ 1 → result ≡ Usage }
    ensures run { length words.now ≡ 1 → IsGateRunEnd result }
{
    match words {
        [path] => run_with(rt, path.as_str(), decks, why),
        _ => ProgramEnd::Usage,
    }
}
