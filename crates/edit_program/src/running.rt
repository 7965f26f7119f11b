//! A run of lines.
ghost use Rattle.std.specs.Prelude.{◌≡◌, ◌⊎◌, ◌∷◌, [], IfOk, map, string_bytes};
ghost use Rattle.edit_program.specs.Dials.{dials};
ghost use Rattle.edit_program.specs.Ends.{Connects, HasRun, IsStarved, ProgramEnds, streams};
ghost use Rattle.edit_program.specs.Words.{editor_id as editor_id_of};

use crate::server::{Server, port_to, server_in, tell_silence};
use edit_lines::Names;
use edit_runs::{EditStatus, run_edits};
use mos_fields::{Id, NoMemory};
use mos_io::{Sink, Source};
use port_links::{Dialer, Link, News, Place};
use port_session::Port;
use std::alloc::Global;
use std::sync::Wait;

// The editor's ID in its messages.
fn editor_id(alloc: Global) -> Result<Id, NoMemory>
    ensures { IfOk result (λ id. id ≡ editor_id_of) }
{
    match Id::try_new(alloc, &['e', 'd', 'i', 't', 'o', 'r']) {
        Ok(id) => Ok(id),
        Err(_) => Err(NoMemory),
    }
}

// The names of both ends, of which this is the server's.
fn names_of(alloc: Global, ncs: Id) -> Result<Names, NoMemory>
    ensures mos { IfOk result (λ names. names.mos ≡ editor_id_of) }
    ensures ncs { IfOk result (λ names. names.ncs ≡ ncs) }
{
    let mos = editor_id(alloc)?;
    Ok(Names { mos, ncs })
}

// A run over a connection.
fn run_over<R: AllocGlobal + Wait, C: Source + Drop, T: Sink + Drop, S: Source, K: Sink, E: Sink>(
    rt: &R,
    names: &Names,
    link: Link<C, T>,
    source: &mut S,
    out: &mut K,
    notes: &mut E,
) -> EditStatus
    requires { names.now.mos ≡ editor_id_of }
    ensures { HasRun names.now.ncs (streams (S.left source.old) (S.faults source.old) (K.written out.old) (K.faults out.old) (E.written notes.old) (E.faults notes.old)) (streams (S.left source.new) (S.faults source.new) (K.written out.new) (K.faults out.new) (E.written notes.new) (E.faults notes.new)) result }
{
    let mut from = link.source;
    let mut to = link.sink;
    run_edits(
        rt,
        rt.alloc(),
        names,
        source,
        &mut from,
        &mut to,
        out,
        notes,
    )
}

// Whether a read of the connection failed.
fn is_unheard(status: EditStatus) -> bool {
    match status {
        EditStatus::Unheard { line: _ } => true,
        _ => false,
    }
}

// A run at this place.
fn run_at<R: AllocGlobal + Wait, D: Dialer, S: Source, K: Sink, E: Sink>(
    rt: &R,
    place: &Place,
    port: &Port,
    names: &Names,
    dialer: &mut D,
    source: &mut S,
    out: &mut K,
    notes: &mut E,
) -> EditStatus
    requires { names.now.mos ≡ editor_id_of }
    ensures { Connects names.now.ncs (dials (D.links dialer.old) (D.calls dialer.old) (D.faults dialer.old)) (dials (D.links dialer.new) (D.calls dialer.new) (D.faults dialer.new)) (streams (S.left source.old) (S.faults source.old) (K.written out.old) (K.faults out.old) (E.written notes.old) (E.faults notes.old)) (streams (S.left source.new) (S.faults source.new) (K.written out.new) (K.faults out.new) (E.written notes.new) (E.faults notes.new)) result }
{
    match dialer.dial(place) {
        Ok(link) => {
            let number = link.number;
            let status = run_over(rt, names, link, source, out, notes);
            tell_silence(dialer, port, place, number, is_unheard(status));
            status
        }
        Err(_) => {
            dialer.hear(port, place, News::Failed);
            EditStatus::Lost
        }
    }
}

// A run to this server.
fn run_to<R: AllocGlobal + Wait, D: Dialer, S: Source, K: Sink, E: Sink>(
    rt: &R,
    server: Server,
    dialer: &mut D,
    source: &mut S,
    out: &mut K,
    notes: &mut E,
) -> EditStatus
    ensures { Connects server.id (dials (D.links dialer.old) (D.calls dialer.old) (D.faults dialer.old)) (dials (D.links dialer.new) (D.calls dialer.new) (D.faults dialer.new)) (streams (S.left source.old) (S.faults source.old) (K.written out.old) (K.faults out.old) (E.written notes.old) (E.faults notes.old)) (streams (S.left source.new) (S.faults source.new) (K.written out.new) (K.faults out.new) (E.written notes.new) (E.faults notes.new)) result ⊎ IsStarved (dials (D.links dialer.old) (D.calls dialer.old) (D.faults dialer.old)) (dials (D.links dialer.new) (D.calls dialer.new) (D.faults dialer.new)) (streams (S.left source.old) (S.faults source.old) (K.written out.old) (K.faults out.old) (E.written notes.old) (E.faults notes.old)) (streams (S.left source.new) (S.faults source.new) (K.written out.new) (K.faults out.new) (E.written notes.new) (E.faults notes.new)) result }
{
    let place = server.place;
    match port_to(&server.id) {
        Err(_) => EditStatus::NoMemory,
        Ok(port) => match names_of(rt.alloc(), server.id) {
            Ok(names) => run_at(rt, &place, &port, &names, dialer, source, out, notes),
            Err(_) => EditStatus::NoMemory,
        },
    }
}

// A run with two words.
fn run_with<R: AllocGlobal + Wait, D: Dialer, S: Source, K: Sink, E: Sink>(
    rt: &R,
    first: &str,
    second: &str,
    dialer: &mut D,
    source: &mut S,
    out: &mut K,
    notes: &mut E,
) -> EditStatus
    ensures { ProgramEnds (first.now ∷ second.now ∷ []) (dials (D.links dialer.old) (D.calls dialer.old) (D.faults dialer.old)) (dials (D.links dialer.new) (D.calls dialer.new) (D.faults dialer.new)) (streams (S.left source.old) (S.faults source.old) (K.written out.old) (K.faults out.old) (E.written notes.old) (E.faults notes.old)) (streams (S.left source.new) (S.faults source.new) (K.written out.new) (K.faults out.new) (E.written notes.new) (E.faults notes.new)) result }
{
    match server_in(rt.alloc(), first, second) {
        Ok(server) => run_to(rt, server, dialer, source, out, notes),
        Err(status) => status,
    }
}

/// Takes the lines of `source` with the words behind the program's name: the server's port for editors, and the server's ID.
/// What is told of each answer goes to `out`, and the mistakes of lines that are no edit to `notes`.
///
/// `Usage` comes only where these words aren't two, of which the first is a place, as `place_in` says, and the second an ID: 1
/// to 128 characters that XML 1.0 allows. The dialer isn't called then; else it is called once, unless memory runs out before. `Lost`
/// comes where that call opened no connection, and its count of faults rose. The statuses of `run_edits` come from here too: the run
/// is made over the connection that the dialer opened. Without a run nothing is read or written. The dialer is told where its dial
/// failed, and where a read of its connection did.
pub fn run_editor<R: AllocGlobal + Wait, D: Dialer, S: Source, K: Sink, E: Sink>(
    rt: &R,
    words: &[String],
    dialer: &mut D,
    source: &mut S,
    out: &mut K,
    notes: &mut E,
) -> EditStatus
    ensures { ProgramEnds (map string_bytes words.now) (dials (D.links dialer.old) (D.calls dialer.old) (D.faults dialer.old)) (dials (D.links dialer.new) (D.calls dialer.new) (D.faults dialer.new)) (streams (S.left source.old) (S.faults source.old) (K.written out.old) (K.faults out.old) (E.written notes.old) (E.faults notes.old)) (streams (S.left source.new) (S.faults source.new) (K.written out.new) (K.faults out.new) (E.written notes.new) (E.faults notes.new)) result }
{
    match words {
        [first, second] => run_with(
            rt,
            first.as_str(),
            second.as_str(),
            dialer,
            source,
            out,
            notes,
        ),
        _ => EditStatus::Usage,
    }
}
