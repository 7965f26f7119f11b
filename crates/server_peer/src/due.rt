//! The entry that a device is sent next.
ghost use Rattle.std.specs.Prelude.{◌≡◌, ◌<◌, ◌≤◌, None, true, false, length, slice_get};
ghost use Rattle.mos_machines.specs.Server.View.{Out};
ghost use Rattle.mos_machines.specs.Tables.{look};
ghost use Rattle.rundown_log.specs.Positions.{positions};
ghost use Rattle.server_peer.specs.declared.due.DueKind.TheVariants as due;
ghost use Rattle.server_peer.specs.Dues.{due_found as due_found_of, due_again, due_first, due_of as due_of_view, sooner as sooner_of, first_from, IsIdleBefore, at_place as at_place_of, due_here as due_here_of};

use crate::view::{Held, Seen};
use mos_fields::Id;
use order_table::OrderTable;
use rundown_log::Journal;

// What of an order is sent.
#[derive(Clone, Copy)]
pub enum DueKind {
    // The entry with the number.
    Edit,
    // The READY before it, sent again.
    Again,
    // The script of entry `k`, sent again behind a list of so many entries.
    Script { k: u64 },
}

// An entry that is due: its place in the journal, its number in its order or, where something is sent again, the number of
// entries that the list had, and what is sent. What is sent again stands where the last entry of the list does.
#[derive(Clone, Copy)]
pub struct Due {
    pub place: usize,
    pub number: u64,
    pub kind: DueKind,
}

fn due_found(number: u64, kind: DueKind, place: Option<usize>) -> Option<Due>
    ensures { result ≡ due_found_of number kind place }
{
    match place {
        Some(place) => Some(Due {
            place,
            number,
            kind,
        }),
        None => None,
    }
}

// Entry `k` of an order, where it is there.
fn due_at(journal: &Journal, ro: &Id, k: u64) -> Option<Due>
    ensures { result ≡ due_found_of k due.Edit (slice_get (positions ro.now journal.now) k) }
{
    due_found(k, DueKind::Edit, journal.find(ro, k as usize))
}

// What is sent again behind a list of `m` entries, where it has any.
fn again_at(journal: &Journal, ro: &Id, m: u64, kind: DueKind) -> Option<Due>
    ensures { result ≡ due_again journal.now ro.now m kind }
{
    match m.checked_sub(1) {
        Some(k) => due_found(m, kind, journal.find(ro, k as usize)),
        None => None,
    }
}

// What an order after `n` entries makes due, of which this is the first script that is due.
pub fn due_behind_list(
    journal: &Journal,
    ro: &Id,
    n: u64,
    again: bool,
    script: Option<u64>,
) -> Option<Due>
    ensures { result ≡ due_first journal.now ro.now n again script }
{
    match script {
        Some(k) => again_at(journal, ro, n, DueKind::Script { k }),
        None => {
            if again {
                again_at(journal, ro, n, DueKind::Again)
            } else {
                due_at(journal, ro, n)
            }
        }
    }
}

// The first of some numbers.
pub fn first_number(numbers: &[u64]) -> Option<u64>
    ensures { result ≡ slice_get numbers.now 0 }
{
    match numbers.first() {
        Some(number) => Some(*number),
        None => None,
    }
}

// What a view makes due.
pub fn due_of(journal: &Journal, ro: &Id, seen: &Seen) -> Option<Due>
    ensures { result ≡ due_of_view journal.now ro.now seen.now }
{
    match seen.held {
        Held::In { n, again } => due_behind_list(
            journal,
            ro,
            n,
            again,
            first_number(&seen.scripts),
        ),
        Held::From { k } => due_at(journal, ro, k),
        _ => None,
    }
}

// The one of two that stands first in the journal.
pub fn sooner(a: Option<Due>, b: Option<Due>) -> Option<Due>
    ensures { result ≡ sooner_of a b }
{
    match (a, b) {
        (None, b) => b,
        (Some(d), None) => Some(d),
        (Some(d), Some(e)) => { if e.place < d.place { Some(e) } else { Some(d) } }
    }
}

// The one of all views that stands first in the journal.
fn first_due(journal: &Journal, rows: &[(Id, Seen)]) -> Option<Due>
    ensures { result ≡ first_from journal.now None rows.now }
{
    let mut best = None;
    'rows: for row in rows {
        best = sooner(best, due_of(journal, &row.0, &row.1));
    }
    best
}

// What is due, where it stands at this place.
fn at_place(place: usize, due: Option<Due>) -> Option<Due>
    ensures { result ≡ at_place_of place due }
{
    match due {
        Some(due) => { if due.place == place { Some(due) } else { None } }
        None => None,
    }
}

// The entry at this place, where it is due.
fn due_here(journal: &Journal, views: &OrderTable<Seen>, place: usize) -> Option<Due>
    requires { place < length journal.now }
    ensures { result ≡ due_here_of journal.now views.now place }
{
    let ro = journal.at(place).ro();
    match views.find(ro) {
        Some(seen) => at_place(place, due_of(journal, ro, seen)),
        None => None,
    }
}

// The first entry from this place on that is due, where none before it is.
fn due_behind(journal: &Journal, views: &OrderTable<Seen>, from: usize) -> Option<Due>
    requires { IsIdleBefore from journal.now (look Out views.now) }
    ensures { result ≡ first_from journal.now None views.now }
{
    views.has_ascending_ids();
    let mut place = from;
    'places: while place < journal.len() {
        match due_here(journal, views, place) {
            Some(due) => return Some(due),
            None => {}
        }
        place += 1;
    }
    None
}

// The entry that is due and stands first in the journal, where none before this place is due. Of the entries from that place
// on and the views it goes over those of which there are fewer.
pub fn first_due_from(journal: &Journal, views: &OrderTable<Seen>, from: usize) -> Option<Due>
    requires { IsIdleBefore from journal.now (look Out views.now) }
    ensures { result ≡ first_from journal.now None views.now }
{
    if journal.len().saturating_sub(from) > views.rows().len() {
        first_due(journal, views.rows())
    } else {
        due_behind(journal, views, from)
    }
}

// How many entries there are, which is a number of 64 bits.
pub fn entries_in(journal: &Journal) -> usize
    ensures count { result ≡ length journal.now }
    ensures bound { length journal.now ≤ 18446744073709551615 }
{
    journal.len()
}
