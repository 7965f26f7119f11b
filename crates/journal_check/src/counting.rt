//! How many orders entries leave.
ghost use Rattle.std.specs.Prelude.{◌≡◌};
ghost use Rattle.journal_check.specs.Checks.{creations, deletions, is_create, is_delete};

use mos_edits::Edit;
use rundown_log::Entry;

// Whether an entry creates its order.
fn creates(entry: &Entry) -> bool
    ensures { result ≡ is_create (entry.now).edit }
{
    matches!(entry.edit(), Edit::Create(_))
}

// Whether it deletes its order.
fn deletes(entry: &Entry) -> bool
    ensures { result ≡ is_delete (entry.now).edit }
{
    matches!(entry.edit(), Edit::Delete(_))
}

/// How many entries create an order.
pub(crate) fn count_creations(entries: &[Entry]) -> u64
    ensures { result ≡ creations entries.now }
{
    let mut count = 0;
    let mut rest = entries;
    while let [entry, more @ ..] = rest {
        if creates(entry) {
            count += 1;
        }
        rest = more;
    }
    count
}

/// How many delete one.
pub(crate) fn count_deletions(entries: &[Entry]) -> u64
    ensures { result ≡ deletions entries.now }
{
    let mut count = 0;
    let mut rest = entries;
    while let [entry, more @ ..] = rest {
        if deletes(entry) {
            count += 1;
        }
        rest = more;
    }
    count
}
