//! A run of the messages of a file.
ghost use Rattle.std.specs.Prelude.{◌∷◌, [], map, string_bytes};
ghost use Rattle.edit_program.specs.Dials.{dials};
ghost use Rattle.edit_program.specs.Files.{Checks, FileEnds, Gave, HasGivenFile, file_streams};

use crate::server::{Server, port_to, server_in, tell_silence};
use edit_runs::EditStatus;
use message_runs::{MessageEnd, run_messages};
use mos_fields::let_go;
use mos_io::{Sink, Source};
use port_links::{Dialer, Link, News, Place};
use port_session::Port;
use std::alloc::Global;
use std::sync::Wait;

// Whether the first two of three words are a place and an ID. What the third is doesn't matter.
fn check_three(alloc: Global, first: &str, second: &str, _path: &str) -> Result<(), EditStatus>
    ensures { Checks (first.now ∷ second.now ∷ _path.now ∷ []) result }
{
    match server_in(alloc, first, second) {
        Ok(server) => {
            let_go(server);
            Ok(())
        }
        Err(status) => Err(status),
    }
}

/// Whether the words behind the program's name are three, of which the first is a place, as `place_in` says, and the second an ID.
/// `Usage` comes exactly where they aren't, and memory doesn't run out; the only other error is `NoMemory`. What the third is, the
/// path of a file, the system says.
pub fn check_words(alloc: Global, words: &[String]) -> Result<(), EditStatus>
    ensures { Checks (map string_bytes words.now) result }
{
    match words {
        [first, second, path] => {
            check_three(alloc, first.as_str(), second.as_str(), path.as_str())
        }
        _ => Err(EditStatus::Usage),
    }
}

// A run over a connection.
fn give_over<R: AllocGlobal + Wait, C: Source + Drop, T: Sink + Drop, S: Source, K: Sink>(
    rt: &R,
    link: Link<C, T>,
    source: &mut S,
    out: &mut K,
) -> MessageEnd
    ensures { HasGivenFile (file_streams (S.left source.old) (S.faults source.old) (K.written out.old) (K.faults out.old)) (file_streams (S.left source.new) (S.faults source.new) (K.written out.new) (K.faults out.new)) result }
{
    let mut from = link.source;
    let mut to = link.sink;
    run_messages(rt, rt.alloc(), source, &mut from, &mut to, out)
}

// A run at this place.
fn give_at<R: AllocGlobal + Wait, D: Dialer, S: Source, K: Sink>(
    rt: &R,
    place: &Place,
    port: &Port,
    dialer: &mut D,
    source: &mut S,
    out: &mut K,
) -> Result<MessageEnd, EditStatus>
    ensures { Gave (dials (D.links dialer.old) (D.calls dialer.old) (D.faults dialer.old)) (dials (D.links dialer.new) (D.calls dialer.new) (D.faults dialer.new)) (file_streams (S.left source.old) (S.faults source.old) (K.written out.old) (K.faults out.old)) (file_streams (S.left source.new) (S.faults source.new) (K.written out.new) (K.faults out.new)) result }
{
    match dialer.dial(place) {
        Ok(link) => {
            let number = link.number;
            let end = give_over(rt, link, source, out);
            tell_silence(dialer, port, place, number, end == MessageEnd::Unheard);
            Ok(end)
        }
        Err(_) => {
            dialer.hear(port, place, News::Failed);
            Err(EditStatus::Lost)
        }
    }
}

// A run to this server.
fn give_to<R: AllocGlobal + Wait, D: Dialer, S: Source, K: Sink>(
    rt: &R,
    server: &Server,
    dialer: &mut D,
    source: &mut S,
    out: &mut K,
) -> Result<MessageEnd, EditStatus>
    ensures { Gave (dials (D.links dialer.old) (D.calls dialer.old) (D.faults dialer.old)) (dials (D.links dialer.new) (D.calls dialer.new) (D.faults dialer.new)) (file_streams (S.left source.old) (S.faults source.old) (K.written out.old) (K.faults out.old)) (file_streams (S.left source.new) (S.faults source.new) (K.written out.new) (K.faults out.new)) result }
{
    match port_to(&server.id) {
        Ok(port) => give_at(rt, &server.place, &port, dialer, source, out),
        Err(_) => Err(EditStatus::NoMemory),
    }
}

// A run with three words.
fn give_with<R: AllocGlobal + Wait, D: Dialer, S: Source, K: Sink>(
    rt: &R,
    first: &str,
    second: &str,
    _path: &str,
    dialer: &mut D,
    source: &mut S,
    out: &mut K,
) -> Result<MessageEnd, EditStatus>
    ensures { FileEnds (first.now ∷ second.now ∷ _path.now ∷ []) (dials (D.links dialer.old) (D.calls dialer.old) (D.faults dialer.old)) (dials (D.links dialer.new) (D.calls dialer.new) (D.faults dialer.new)) (file_streams (S.left source.old) (S.faults source.old) (K.written out.old) (K.faults out.old)) (file_streams (S.left source.new) (S.faults source.new) (K.written out.new) (K.faults out.new)) result }
{
    match server_in(rt.alloc(), first, second) {
        Ok(server) => give_to(rt, &server, dialer, source, out),
        Err(status) => Err(status),
    }
}

/// Gives the messages of `source`, a file that was opened, with the words behind the program's name: the server's port for editors,
/// the server's ID, and the path of the file. What is told of each answer goes to `out`. The messages have names of their own, and the
/// server's ID is only looked at.
///
/// `Ok` is how the run ended that was made over the connection that the dialer opened, as `run_messages` says. An error comes where no
/// run was made: `Usage` as from `check_words`, where the dialer isn't called; `Lost` where it was called, once, and opened no connection,
/// and its count of faults rose. Nothing was read or written then. The dialer is told where its dial failed, and where a read of its
/// connection did.
pub fn run_file<R: AllocGlobal + Wait, D: Dialer, S: Source, K: Sink>(
    rt: &R,
    words: &[String],
    dialer: &mut D,
    source: &mut S,
    out: &mut K,
) -> Result<MessageEnd, EditStatus>
    ensures { FileEnds (map string_bytes words.now) (dials (D.links dialer.old) (D.calls dialer.old) (D.faults dialer.old)) (dials (D.links dialer.new) (D.calls dialer.new) (D.faults dialer.new)) (file_streams (S.left source.old) (S.faults source.old) (K.written out.old) (K.faults out.old)) (file_streams (S.left source.new) (S.faults source.new) (K.written out.new) (K.faults out.new)) result }
{
    match words {
        [first, second, path] => give_with(
            rt,
            first.as_str(),
            second.as_str(),
            path.as_str(),
            dialer,
            source,
            out,
        ),
        _ => Err(EditStatus::Usage),
    }
}
