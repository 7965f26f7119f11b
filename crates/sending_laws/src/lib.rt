//! What a server sends its devices as edits, over whole runs of the world: with restarts of the server and of the devices, cut
//! and lost connections, and appends that fail.
#![tactic(auto)]

ghost use Rattle.std.specs.Prelude.{◌≡◌, ℕ, ◌+◌, ◌≤◌, List, length};
ghost use Rattle.mos_edits.specs.Texts.{Text};
ghost use Rattle.mos_machines.specs.Messages.{Packet};
ghost use Rattle.world_laws.specs.World.{World, WorldEvent, Effect, opening, world_step};
ghost use Rattle.world_laws.specs.Reached.{IsReached};
ghost use Rattle.sending_laws.specs.Sends.{entries_sent, readies_sent_again, lists_told, times, AreAscending, IsEditOf};

/// No entry is sent twice to a device, over any run: the entries of an order that a device is sent have ascending numbers, so
/// each of them goes out to it at most once.
///
/// Restarts of the server and of the device change nothing of that. What was sent before, or was accepted before a restart of
/// the server, the device is told again only by a list, or by a whole-order edit that is accepted later, and never by the
/// same entry. Of READYs that are sent again `readies_are_sent_again_after_lists` speaks.
pub fn no_entry_is_sent_twice()
    ensures ascending { (devices : ℕ) (events : List WorldEvent) (d : ℕ) (r : Text) → AreAscending 0 (entries_sent d r (opening devices) events) }
    ensures once { (devices : ℕ) (events : List WorldEvent) (d : ℕ) (r : Text) (k : ℕ) → times k (entries_sent d r (opening devices) events) ≤ 1 }
{}

/// A READY goes out again only behind a list: over any run, no more READYs of an order are sent again to a device than lists of
/// that order were told to it, and at most one before the next such list. So the same holds of each READY alone.
pub fn readies_are_sent_again_after_lists()
    ensures fewer { (devices : ℕ) (events : List WorldEvent) (d : ℕ) (r : Text) → length (readies_sent_again d r (opening devices) events) ≤ length (lists_told d r (opening devices) events) }
    ensures between { (w : World) (events : List WorldEvent) (d : ℕ) (r : Text) → length (readies_sent_again d r w events) ≤ length (lists_told d r w events) + 1 }
{}

/// Each edit that is written is an entry of its order as it stands in the journal, or a READY or a script that is sent again;
/// and it is tagged so. Devices write none.
pub fn edits_are_entries()
    ensures { (w : World) (e : WorldEvent) (p : Packet) → IsReached w → (world_step w e).1 ≡ Effect.Wrote p → IsEditOf w.journal p p.message }
{}
