//! Whether an entry is a READY.
ghost use Rattle.std.specs.Prelude.{◌≡◌};
ghost use Rattle.mos_machines.specs.Server.{is_ready, ready_before as ready_before_of};
ghost use Rattle.mos_edits.specs.Entries.{kind, edit_at};

use mos_edits::Edit;
use mos_fields::{Air, Id};
use rundown_log::{Entry, Journal};

// Whether an edit is a READY.
fn is_ready_edit(edit: &Edit) -> bool
    ensures { result ≡ is_ready (kind edit.now) }
{
    match edit {
        Edit::Air {
            ro: _,
            air: Air::Ready,
        } => true,
        _ => false,
    }
}

fn is_ready_entry(entry: &Entry) -> bool
    ensures { result ≡ is_ready (kind entry.now.edit) }
{
    is_ready_edit(entry.edit())
}

// Whether entry `k` of an order is a READY.
pub fn is_ready_at(journal: &Journal, ro: &Id, k: u64) -> bool
    ensures { result ≡ is_ready (kind (edit_at journal.now ro.now k)) }
{
    match journal.find(ro, k as usize) {
        Some(place) => is_ready_entry(journal.at(place)),
        None => false,
    }
}

// Whether the entry before `m` is a READY.
pub fn is_ready_before(journal: &Journal, ro: &Id, m: u64) -> bool
    ensures { result ≡ ready_before_of journal.now ro.now m }
{
    match m.checked_sub(1) {
        Some(k) => is_ready_at(journal, ro, k),
        None => false,
    }
}
