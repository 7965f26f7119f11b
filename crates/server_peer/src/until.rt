//! How far nothing is due once a list was taken, or what is in flight was answered.
ghost use Rattle.std.specs.Prelude.{◌≡◌, ◌≤◌, None, slice_get};
ghost use Rattle.mos_machines.specs.Server.View.{Out};
ghost use Rattle.mos_machines.specs.Tables.{look, map_rows};
ghost use Rattle.rundown_log.specs.Positions.{positions};
ghost use Rattle.server_peer.specs.Parts.{out_of, upper_of, out_view, flight_view};
ghost use Rattle.server_peer.specs.Dues.{due_of as due_of_view, first_from, StandsFrom, only_listed, entry_until as entry_until_of, again_until as again_until_of, script_until as script_until_of, flight_until as flight_until_of, out_until as out_until_of};

use crate::due::{Due, due_behind_list, first_number, sooner};
use crate::ready::is_ready_before;
use crate::upper::{ServerOut, Upper};
use crate::view::{Held, Seen};
use mos_fields::Id;
use order_table::OrderTable;
use rundown_log::Journal;

// What a list makes due that was on its way and was taken.
fn listed_due(journal: &Journal, ro: &Id, seen: &Seen) -> Option<Due>
    ensures { result ≡ due_of_view journal.now ro.now (only_listed journal.now ro.now seen.now) }
{
    match seen.held {
        Held::Listed { m } => due_behind_list(
            journal,
            ro,
            m,
            is_ready_before(journal, ro, m),
            first_number(&seen.scripts),
        ),
        _ => None,
    }
}

// The one of all lists on their way that stands first in the journal, once they are taken.
pub fn first_listed(journal: &Journal, rows: &[(Id, Seen)]) -> Option<Due>
    ensures { result ≡ first_from journal.now None (map_rows (only_listed journal.now) rows.now) }
{
    let mut best = None;
    'rows: for row in rows {
        best = sooner(best, listed_due(journal, &row.0, &row.1));
    }
    best
}

// A place, or that of an entry which stands before it.
pub fn place_until(from: usize, due: Option<Due>) -> usize
    ensures stands { StandsFrom result due }
    ensures within { result ≤ from }
{
    match due {
        Some(due) => { if due.place < from { due.place } else { from } }
        None => from,
    }
}

// A place, or that of entry `k` of an order, where that stands before it; the first where there is no such entry.
fn entry_until(journal: &Journal, ro: &Id, k: u64, from: usize) -> usize
    ensures { result ≡ entry_until_of (slice_get (positions ro.now journal.now) k) from }
{
    match journal.find(ro, k as usize) {
        Some(place) => { if place < from { place } else { from } }
        None => 0,
    }
}

// The same of the entry before `m`.
fn again_until(journal: &Journal, ro: &Id, m: u64, from: usize) -> usize
    ensures { result ≡ again_until_of journal.now ro.now m from }
{
    match m.checked_sub(1) {
        Some(k) => entry_until(journal, ro, k, from),
        None => 0,
    }
}

// A place, or the first where a script was sent behind a list of no entries.
fn script_until(views: &OrderTable<Seen>, ro: &Id, from: usize) -> usize
    ensures { result ≡ script_until_of (look Out views.now ro.now) from }
{
    match views.find(ro) {
        Some(seen) => held_until(seen, from),
        None => from,
    }
}

fn held_until(seen: &Seen, from: usize) -> usize
    ensures { result ≡ script_until_of seen.now from }
{
    match seen.held {
        Held::In { n, again: _ } => { if n == 0 { 0 } else { from } }
        _ => from,
    }
}

// A place, or that of the entry in flight, where that stands before it.
fn flight_until(journal: &Journal, views: &OrderTable<Seen>, out: &ServerOut, from: usize) -> usize
    ensures { result ≡ flight_until_of journal.now (out_view (out_of out.now) (look Out views.now)) (out_of out.now) from }
{
    match out {
        ServerOut::Edit { ro, k } => entry_until(journal, ro, *k, from),
        ServerOut::Again { ro, m } => again_until(journal, ro, *m, from),
        ServerOut::Script { ro, k: _, m: _ } => script_until(views, ro, from),
        _ => from,
    }
}

// The same by the connection.
pub fn out_until(journal: &Journal, views: &OrderTable<Seen>, upper: &Upper, from: usize) -> usize
    ensures { result ≡ out_until_of journal.now (flight_view (upper_of upper.now) (look Out views.now)) (upper_of upper.now) from }
{
    match upper {
        Upper::Open { link: _, out } => flight_until(journal, views, out, from),
        _ => from,
    }
}
