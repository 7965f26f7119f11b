//! Laws of the server's steps.

ghost use Rattle.std.specs.Prelude.{◌≡◌, ℕ, ◌+◌, ◌<◌, ◌≤◌, List, length, Bool, true, false};
ghost use Rattle.mos_fields.specs.declared.time.MosTime.{MosTime};
ghost use Rattle.mos_edits.specs.Texts.{Text};
ghost use Rattle.mos_edits.specs.Entries.{Entry, entry_count, order_now};
ghost use Rattle.mos_machines.specs.Messages.{Message, Status, Packet, Tag, untagged};
ghost use Rattle.mos_machines.specs.Server.{View, ServerOut, is_busy, list_of, due_in, first_due};
ghost use Rattle.mos_machines.specs.Steps.{ServerState, ServerEvent, StepAnswer, started, server_step, is_upper, is_lower};
ghost use Rattle.mos_machines.specs.Views.{IsServerWithin, next_entry};

/// After its start and after each event the server's views speak of entries that its journal has, and what is in flight is
/// what a view made due.
pub fn server_stays_within_its_journal()
    ensures start { (journal : List Entry) (faults : ℕ) → IsServerWithin (started journal faults) }
    ensures step { (fails : Bool) (s : ServerState) (e : ServerEvent) → IsServerWithin s → IsServerWithin (server_step fails s e).1 }
{}

/// No entry is sent twice to a device, but a READY or a script that is sent again: the next entry of an order that a device may be sent
/// never falls, and a sent entry was the next and isn't from then on.
pub fn no_entry_is_sent_twice()
    ensures never_falls { (fails : Bool) (s : ServerState) (e : ServerEvent) → IsServerWithin s → (d : ℕ) (r : Text) → next_entry s.journal (s.peers d) r ≤ next_entry (server_step fails s e).1.journal ((server_step fails s e).1.peers d) r }
    ensures sent { (fails : Bool) (s : ServerState) (d c : ℕ) (now : MosTime) (p : Packet) (r : Text) (k : ℕ) → (server_step fails s (ServerEvent.NextSend d c now)).0 ≡ StepAnswer.Sent p → p.tag ≡ Tag.OfEntry r k
        → (next_entry s.journal (s.peers d) r ≡ k) × (next_entry s.journal ((server_step fails s (ServerEvent.NextSend d c now)).1.peers d) r ≡ k + 1) }
{}

/// A request of an order is answered with the order, or that there is none, where the server's connection to the device is
/// open and no edit of that order is in flight to it. Else it is put off.
pub fn requests_are_answered_with_the_order()
    ensures answered { (fails : Bool) (s : ServerState) (d c : ℕ) (r : Text) → is_lower s d c ≡ true → is_busy r (s.peers d).upper ≡ false
        → (server_step fails s (ServerEvent.Hear d c (Message.RoReq r))).0 ≡ StepAnswer.Say (list_of r (entry_count s.journal r) (order_now s.journal r)) }
    ensures put_off { (fails : Bool) (s : ServerState) (d c : ℕ) (r : Text) → is_lower s d c ≡ true → is_busy r (s.peers d).upper ≡ true
        → (server_step fails s (ServerEvent.Hear d c (Message.RoReq r))).0 ≡ StepAnswer.Say (untagged (Message.RoAck r Status.NotNow)) }
{}

/// Of the entries that are due, the one that stands first in the journal is sent; and none where none is due.
pub fn next_send_takes_the_first_due()
    ensures first { (views : Text → View) (before : Text → ℕ) (journal : List Entry) (n : ℕ) → ((m : ℕ) → m < n → due_in views before journal m ≡ ServerOut.Idle) → (due_in views before journal n ≡ ServerOut.Idle → ⊥) → first_due views before journal ≡ due_in views before journal n }
    ensures none { (views : Text → View) (before : Text → ℕ) (journal : List Entry) → ((m : ℕ) → m < length journal → due_in views before journal m ≡ ServerOut.Idle) → first_due views before journal ≡ ServerOut.Idle }
{}

/// A message or an end on a connection that isn't the server's current one is answered Stale and changes nothing.
pub fn stale_links_leave_the_server()
    ensures cut { (fails : Bool) (s : ServerState) (d c : ℕ) → is_upper s d c ≡ false → server_step fails s (ServerEvent.UpperCut d c) ≡ (StepAnswer.Stale, s) }
    ensures answer { (fails : Bool) (s : ServerState) (d c : ℕ) (m : Message) → is_upper s d c ≡ false → server_step fails s (ServerEvent.UpperAnswer d c m) ≡ (StepAnswer.Stale, s) }
    ensures next { (fails : Bool) (s : ServerState) (d c : ℕ) (now : MosTime) → is_upper s d c ≡ false → server_step fails s (ServerEvent.NextSend d c now) ≡ (StepAnswer.Stale, s) }
    ensures dropped { (fails : Bool) (s : ServerState) (d c : ℕ) → is_lower s d c ≡ false → server_step fails s (ServerEvent.DeviceDropped d c) ≡ (StepAnswer.Stale, s) }
    ensures heard { (fails : Bool) (s : ServerState) (d c : ℕ) (m : Message) → is_lower s d c ≡ false → server_step fails s (ServerEvent.Hear d c m) ≡ (StepAnswer.Stale, s) }
{}
