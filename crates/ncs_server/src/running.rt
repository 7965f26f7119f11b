//! A run of the server.
ghost use Rattle.std.specs.Prelude.{◌≡◌, ◌≢◌, length};
ghost use Rattle.end_settings.specs.Devices.{AreDevices};
ghost use Rattle.program_ends.specs.Ends.{IsServerRunEnd};
ghost use Rattle.program_ends.specs.declared.program_end.ProgramEnd.TheVariants.{Usage};

use crate::journal::{keeper_of, lock_of};
use crate::outside::{Outside, outside_of};
use crate::settings::{Given, settings_in};
use file_keeper::FileKeeper;
use mos_fields::let_go;
use port_tcp::SystemClock;
use program_ends::{ProgramEnd, Why};
use server_serving::ncs_serve_by_threads;
use settings_help::server_start_line;
use stamped_lines::say;
use std::net::{Net, TcpListener, TcpStream};
use std::sync::Wait;
use std::thread::Threads;
use std::time::Clock;

// Says that the server starts to serve.
fn say_start(rt: &HostRuntime, given: &Given) {
    if let Ok(mut line) = server_start_line(rt.alloc(), &given.settings, given.listen) {
        if line.push('\n').is_ok() {
            say(rt, rt.alloc(), false, Ok(line));
        }
    }
}

// Serves by these settings, with a keeper of the journal, and what the ports and the workers share.
#[tactic(auto, using(program_ends::proofs::RunEnds::server_served))]
fn serve_with<
    R: Net<Listener = TcpListener, Stream = TcpStream>
        + Clock
        + AllocGlobal
        + Threads
        + Wait
        + Eprint
        + Copy
        + Drop
        + Send
        + Sync
        + 'static,
>(
    rt: HostRuntime,
    threads: R,
    given: &Given,
    keeper: FileKeeper<HostRuntime>,
    outside: Outside<R>,
) -> ProgramEnd
    requires devices { AreDevices (given.now.settings).devices }
    requires refused { (outside.listeners).refused ≡ 0 }
    ensures { IsServerRunEnd result }
{
    let Outside {
        listeners,
        dialer,
        pacer,
    } = outside;
    say_start(&rt, given);
    let (end, _listeners) = ncs_serve_by_threads(
        &threads,
        rt.alloc(),
        &given.settings,
        keeper,
        listeners,
        dialer,
        pacer,
        SystemClock::new(rt),
    );
    ProgramEnd::of_serving(end)
}

// The same with a keeper alone.
fn serve_kept<
    R: Net<Listener = TcpListener, Stream = TcpStream>
        + Clock
        + AllocGlobal
        + Threads
        + Wait
        + Eprint
        + Copy
        + Drop
        + Send
        + Sync
        + 'static,
>(
    rt: HostRuntime,
    threads: R,
    given: &Given,
    keeper: FileKeeper<HostRuntime>,
    why: &mut Why,
) -> ProgramEnd
    requires { AreDevices (given.now.settings).devices }
    ensures { IsServerRunEnd result }
{
    match outside_of(threads, rt.alloc(), given, why) {
        Ok(outside) => serve_with(rt, threads, given, keeper, outside),
        Err(end) => {
            let_go(keeper);
            end
        }
    }
}

// The same, while the journal is locked.
#[tactic(auto, using(program_ends::proofs::RunEnds::server_log))]
fn serve_locked<
    R: Net<Listener = TcpListener, Stream = TcpStream>
        + Clock
        + AllocGlobal
        + Threads
        + Wait
        + Eprint
        + Copy
        + Drop
        + Send
        + Sync
        + 'static,
>(rt: HostRuntime, threads: R, given: &Given, why: &mut Why) -> ProgramEnd
    requires { AreDevices (given.now.settings).devices }
    ensures { IsServerRunEnd result }
{
    match keeper_of(&rt, &given.settings) {
        Ok(keeper) => serve_kept(rt, threads, given, keeper, why),
        Err(end) => end,
    }
}

// Serves by these settings.
#[tactic(auto, using(program_ends::proofs::RunEnds::server_log))]
fn serve<
    R: Net<Listener = TcpListener, Stream = TcpStream>
        + Clock
        + AllocGlobal
        + Threads
        + Wait
        + Eprint
        + Copy
        + Drop
        + Send
        + Sync
        + 'static,
>(rt: HostRuntime, threads: R, given: &Given, why: &mut Why) -> ProgramEnd
    requires { AreDevices (given.now.settings).devices }
    ensures { IsServerRunEnd result }
{
    match lock_of(&rt, &given.settings, why) {
        Ok(lock) => {
            let end = serve_locked(rt, threads, given, why);
            let_go(lock);
            end
        }
        Err(end) => end,
    }
}

// A run with the settings in a file.
#[tactic(auto, using(program_ends::proofs::RunEnds::server_settings))]
fn run_with<
    R: Net<Listener = TcpListener, Stream = TcpStream>
        + Clock
        + AllocGlobal
        + Threads
        + Wait
        + Eprint
        + Copy
        + Drop
        + Send
        + Sync
        + 'static,
>(rt: HostRuntime, threads: R, path: &str, why: &mut Why) -> ProgramEnd
    ensures { IsServerRunEnd result }
{
    match settings_in(&rt, path, why) {
        Ok(given) => serve(rt, threads, &given, why),
        Err(end) => end,
    }
}

/// Runs the server, whose workers are started by `threads`, with the words behind the program's name: the path of its
/// settings.
///
/// `Usage` comes exactly where these words aren't one. What else isn't as it should be is looked for in this order: the
/// settings' file, the settings, the journal's file, the ports, the journal. Memory may run out at each. Where there is more to
/// say of why it ended, `why` has the line.
pub fn run_server<
    R: Net<Listener = TcpListener, Stream = TcpStream>
        + Clock
        + AllocGlobal
        + Threads
        + Wait
        + Eprint
        + Copy
        + Drop
        + Send
        + Sync
        + 'static,
>(rt: HostRuntime, threads: R, words: &[String], why: &mut Why) -> ProgramEnd
    ensures usage { length words.now ≢ 1 → result ≡ Usage }
    ensures run { length words.now ≡ 1 → IsServerRunEnd result }
{
    match words {
        [path] => run_with(rt, threads, path.as_str(), why),
        _ => ProgramEnd::Usage,
    }
}
