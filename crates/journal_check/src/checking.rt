//! A journal's bytes, as a start reads them.
ghost use Rattle.std.specs.Prelude.{◌≡◌, ◌≤◌, ◌-◌, [], IfOk, OnOk, drop, length};
ghost use Rattle.std.specs.List.{AllByRecursion};
ghost use Rattle.mos_edits.specs.Entries.{IsAccepted};
ghost use Rattle.journal_check.specs.Checks.{HasEntries, IsFound, creations, deletions};

use crate::counting::{count_creations, count_deletions};
use crate::keeper::ReadKeeper;
use journal_bytes::{JournalFault, JournalReader};
use mos_fields::let_go;
use ncs_core::{Ncs, StartCause};
use rundown_log::{Entries, Entry};
use std::alloc::Global;

// The end tag of a message, in UTF-16BE.
const END: [u8; 12] = [0, 60, 0, 47, 0, 109, 0, 111, 0, 115, 0, 62];

/// What a start finds in a journal.
#[derive(Clone, Copy, Debug, PartialEq, Eq)]
pub struct JournalFound {
    /// How many entries there are.
    pub entries: u64,
    /// How many orders they leave: those that were created, but for those that were deleted.
    pub orders: u64,
    /// How many bytes behind the last whole message a start sets aside or cuts off.
    pub rest: u64,
}

// How many bytes stand before the zeros at the end, with the other half of a code unit.
fn before_zeros(bytes: &[u8]) -> usize
    ensures within { result ≤ length bytes.now }
    ensures zeros { AllByRecursion (λ b. b ≡ 0) (drop result bytes.now) }
{
    let mut count = bytes.len();
    while count > 0
        && bytes[count - 1] == 0
        && (count < 2 || count % 2 == 1 || bytes[count - 2] == 0)
    {
        count -= 1;
    }
    count
}

// What a journal's fault is to a start.
fn read_cause(fault: JournalFault) -> StartCause {
    match fault {
        JournalFault::Damaged => StartCause::StoreFault,
        JournalFault::NoMemory => StartCause::NoMemory,
    }
}

// The last so many of these bytes.
fn last_of(bytes: &[u8], count: usize) -> &[u8] {
    match bytes.get(bytes.len().saturating_sub(count)..) {
        Some(last) => last,
        None => bytes,
    }
}

// Whether the end tag of a message stands in these bytes.
fn holds_end(bytes: &[u8]) -> bool {
    let mut rest = bytes;
    while let [_, more @ ..] = rest {
        if rest.starts_with(&END) {
            return true;
        }
        rest = more;
    }
    false
}

// The entries of a journal, and how many bytes stand behind the last whole message: no end tag of a message stands there.
fn entries_in(alloc: Global, bytes: &[u8]) -> Result<(Entries, u64), StartCause>
    ensures { IfOk result (λ r. HasEntries bytes.now r.0) }
{
    let mut reader = JournalReader::new(alloc);
    match reader.feed(bytes) {
        Ok(()) => {
            let rest = reader.rest();
            if holds_end(last_of(bytes, rest)) {
                let_go(reader);
                return Err(StartCause::StoreFault);
            }
            Ok((reader.into_entries(), rest as u64))
        }
        Err(fault) => {
            let_go(reader);
            Err(read_cause(fault))
        }
    }
}

// Starts a server with these entries.
fn start_with(alloc: Global, entries: Entries, devices: u32) -> Result<(), StartCause>
    requires least { 1 ≤ devices }
    requires most { devices ≤ 64 }
    ensures { OnOk result (IsAccepted [] entries) }
{
    match Ncs::start(alloc, ReadKeeper::new(alloc, entries), devices) {
        Ok(ncs) => {
            let_go(ncs);
            Ok(())
        }
        Err(fault) => {
            let cause = fault.cause;
            let_go(fault);
            Err(cause)
        }
    }
}

// How many orders these entries leave.
fn count_orders(entries: &[Entry]) -> u64
    ensures { result ≡ creations entries.now - deletions entries.now }
{
    count_creations(entries).saturating_sub(count_deletions(entries))
}

/// What a start of a server of 1 to 64 devices finds in a journal of these bytes, or how it would fail: `StoreFault` where they
/// are damaged, or the end tag of a message stands behind the last whole one, `BadEntry` at the first entry that isn't accepted after those before it, `NoMemory`.
pub fn check_journal(alloc: Global, bytes: &[u8], devices: u32) -> Result<JournalFound, StartCause>
    requires least { 1 ≤ devices }
    requires most { devices ≤ 64 }
    ensures { IfOk result (λ f. IsFound bytes.now f) }
{
    let count = before_zeros(bytes);
    let (entries, behind) = match entries_in(alloc, &bytes[..count]) {
        Ok(read) => read,
        Err(cause) => return Err(cause),
    };
    let found = JournalFound {
        entries: entries.len() as u64,
        orders: count_orders(entries.as_slice()),
        rest: behind.saturating_add((bytes.len() - count) as u64),
    };
    match start_with(alloc, entries, devices) {
        Ok(()) => Ok(found),
        Err(cause) => Err(cause),
    }
}
