//! What the server sends a device next.
ghost use Rattle.std.specs.Prelude.{◌≡◌, ◌≤◌, ◌<◌, length, slice_get, true, Some, None, OnOk, OnErr, IfOk, IsSome};
ghost use Rattle.mos_edits.specs.Entries.{entry_count};
ghost use Rattle.mos_machines.specs.Server.View.{Out};
ghost use Rattle.mos_machines.specs.Server.{Upper as ServerUpper, peer_answered, peer_next, peer_settled};
ghost use Rattle.mos_machines.specs.Messages.{Message as Said};
ghost use Rattle.mos_machines.specs.Tables.{look, peer_of};
ghost use Rattle.rundown_log.specs.Positions.{positions};
ghost use Rattle.mos_machines.specs.Values.{edit_message as edit_message_of};
ghost use Rattle.order_table.specs.Rows.{find_row};
ghost use Rattle.machine_answers.specs.declared.answers.Sent.TheVariants as sents;
ghost use Rattle.machine_answers.specs.declared.answers.Tag.TheVariants as tags;
ghost use Rattle.mos_values.specs.declared.message.Message.TheVariants as carried;
ghost use Rattle.server_peer.specs.Parts.{out_of, upper_of, link_if_idle as link_if_idle_of, idle_link as idle_link_of, sent_of, sent_idle, IsNumbered};
ghost use Rattle.server_peer.specs.Dues.{due_tag as due_tag_of, due_out, first_from, IsIdleBefore, IsScriptDue, IsSource};

use crate::due::{Due, DueKind, entries_in, first_due_from};
use crate::peer::Peer;
use crate::until::{first_listed, out_until, place_until};
use crate::upper::{ServerOut, Upper};
use crate::view::Seen;
use machine_answers::{Sent, Tag};
use mos_edits::edit_message;
use mos_fields::{Id, MosTime, NoMemory};
use mos_values::Message;
use order_table::OrderTable;
use rundown_log::{Entry, Journal};

// The link of an open connection on which nothing is in flight.
fn idle_link(upper: &Upper) -> Option<u64>
    ensures { result ≡ idle_link_of (upper_of upper.now) }
{
    match upper {
        Upper::Open { link, out } => link_if_idle(*link, out),
        _ => None,
    }
}

fn link_if_idle(link: u64, out: &ServerOut) -> Option<u64>
    ensures { result ≡ link_if_idle_of link (out_of out.now) }
{
    match out {
        ServerOut::Idle => Some(link),
        _ => None,
    }
}

// The tag of an entry that is due.
fn due_tag(ro: Id, due: Due) -> Tag
    ensures { result ≡ due_tag_of ro due }
{
    match due.kind {
        DueKind::Edit => Tag::Edit { ro, k: due.number },
        DueKind::Again => Tag::Again { ro, m: due.number },
        DueKind::Script { k } => Tag::Script {
            ro,
            k,
            m: due.number,
        },
    }
}

// What is in flight once an entry that is due was sent.
fn due_flight(ro: Id, due: Due) -> ServerOut
    ensures { out_of result ≡ due_out ro due }
{
    match due.kind {
        DueKind::Edit => ServerOut::Edit { ro, k: due.number },
        DueKind::Again => ServerOut::Again { ro, m: due.number },
        DueKind::Script { k } => ServerOut::Script {
            ro,
            k,
            m: due.number,
        },
    }
}

// An entry that is due, as it is sent.
fn sent_entry(entry: &Entry, due: Due) -> Result<Sent, NoMemory>
    ensures { IfOk result (λ s. s ≡ sents.Out (edit_message_of entry.now.edit) (due_tag_of entry.now.ro due)) }
{
    let tag = due_tag(entry.ro().try_clone()?, due);
    Ok(Sent::Out {
        message: edit_message(entry.edit())?,
        tag,
    })
}

// A heartbeat.
fn beat_at(now: &MosTime) -> Sent
    ensures { result ≡ sents.Out (carried.Heartbeat now.now) tags.Beat }
{
    Sent::Out {
        message: Message::Heartbeat(*now),
        tag: Tag::Beat,
    }
}

// The law of the views that an entry whose script is due stands before the end of the list.
fn has_source(views: &OrderTable<Seen>, journal: &Journal, ro: &Id, k: u64)
    requires { IsScriptDue journal.now ro.now k (look Out views.now ro.now) }
    ensures { k < entry_count journal.now ro.now }
{
    match views.find(ro) {
        Some(seen) => seen.has_earlier_scripts(),
        None => {}
    }
}

// The place of the entry whose script is due.
fn script_place(views: &OrderTable<Seen>, journal: &Journal, ro: &Id, k: u64) -> usize
    requires { IsScriptDue journal.now ro.now k (look Out views.now ro.now) }
    ensures { slice_get (positions ro.now journal.now) k ≡ Some result }
{
    has_source(views, journal, ro, k);
    match journal.find(ro, k as usize) {
        Some(place) => place,
        None => unreachable!(),
    }
}

impl Peer {
    // A heartbeat, where one was asked for.
    fn send_beat(&mut self, link: u64, now: &MosTime) -> Sent
        requires { idle_link_of self.old.upper ≡ Some link }
        ensures answer { result ≡ sent_of (sent_idle now.now (peer_of self.old) link).1 }
        ensures step { peer_of self.new ≡ (sent_idle now.now (peer_of self.old) link).0 }
    {
        if !self.note {
            return Sent::Nothing;
        }
        self.note = false;
        self.upper = Upper::Open {
            link,
            out: ServerOut::Beat,
        };
        beat_at(now)
    }

    // The entry that is due.
    fn send_entry(&mut self, link: u64, entry: &Entry, due: Due) -> Result<Sent, NoMemory>
        requires row { IsSome (find_row entry.now.ro self.old.views) }
        requires number { IsNumbered (due_out entry.now.ro due) }
        ensures answer { IfOk result (λ s. s ≡ sents.Out (edit_message_of entry.now.edit) (due_tag_of entry.now.ro due)) }
        ensures step { OnOk result (self.new ≡ record self.old { upper = ServerUpper.Open link (due_out entry.now.ro due) }) }
        ensures err { OnErr result (self.new ≡ self.old) }
    {
        let ro = entry.ro().try_clone()?;
        let sent = sent_entry(entry, due)?;
        self.upper = Upper::Open {
            link,
            out: due_flight(ro, due),
        };
        Ok(sent)
    }

    // The place of the entry that is sent: where a script is sent again, that of the entry which brought it.
    fn source(&self, journal: &Journal, due: Due) -> usize
        requires { first_from journal.now None self.now.views ≡ Some due }
        ensures { IsSource journal.now due result }
    {
        self.views.has_ascending_ids();
        match due.kind {
            DueKind::Script { k } => script_place(
                &self.views,
                journal,
                journal.at(due.place).ro(),
                k,
            ),
            DueKind::Edit => due.place,
            DueKind::Again => due.place,
        }
    }

    fn send(
        &mut self,
        journal: &Journal,
        link: u64,
        now: &MosTime,
        from: usize,
    ) -> Result<Sent, NoMemory>
        requires link { idle_link_of self.old.upper ≡ Some link }
        requires idle { IsIdleBefore from journal.now (peer_of self.old).views }
        ensures answer { IfOk result (λ a. a ≡ sent_of (peer_next journal.now now.now (peer_of self.old)).1) }
        ensures step { OnOk result (peer_of self.new ≡ (peer_next journal.now now.now (peer_of self.old)).0) }
        ensures err { OnErr result (self.new ≡ self.old) }
    {
        self.views.has_ascending_ids();
        let _count = entries_in(journal);
        match first_due_from(journal, &self.views, from) {
            Some(due) => {
                let source = self.source(journal, due);
                self.send_entry(link, journal.at(source), due)
            }
            None => Ok(self.send_beat(link, now)),
        }
    }

    /// What is sent next on the server's connection: of the entries that the views make due, the one that stands first in
    /// the journal; or else a heartbeat that was asked for.
    ///
    /// `Nothing` comes exactly where the connection isn't open, an answer is awaited, or none of these is due. The only
    /// error is that memory runs out; all is then as it was.
    pub fn next_send(&mut self, journal: &Journal, now: &MosTime) -> Result<Sent, NoMemory>
        ensures answer { IfOk result (λ a. a ≡ sent_of (peer_next journal.now now.now (peer_of self.old)).1) }
        ensures step { OnOk result (peer_of self.new ≡ (peer_next journal.now now.now (peer_of self.old)).0) }
        ensures err { OnErr result (self.new ≡ self.old) }
    {
        self.next_send_from(journal, now, 0)
    }

    /// The same, where it is known that no entry before this place is due. It goes over the entries from there on, or over the
    /// views, of whichever there are fewer.
    pub fn next_send_from(
        &mut self,
        journal: &Journal,
        now: &MosTime,
        from: usize,
    ) -> Result<Sent, NoMemory>
        requires { IsIdleBefore from journal.now (peer_of self.old).views }
        ensures answer { IfOk result (λ a. a ≡ sent_of (peer_next journal.now now.now (peer_of self.old)).1) }
        ensures step { OnOk result (peer_of self.new ≡ (peer_next journal.now now.now (peer_of self.old)).0) }
        ensures err { OnErr result (self.new ≡ self.old) }
    {
        match idle_link(&self.upper) {
            Some(link) => self.send(journal, link, now, from),
            None => Ok(Sent::Nothing),
        }
    }

    /// The place of the first entry that is due, or the end of the journal, where it is known that no entry before this place
    /// is due. It takes no memory.
    pub fn look(&self, journal: &Journal, from: usize) -> usize
        requires { IsIdleBefore from journal.now (peer_of self.now).views }
        ensures idle { IsIdleBefore result journal.now (peer_of self.now).views }
        ensures within { result ≤ length journal.now }
    {
        self.views.has_ascending_ids();
        match first_due_from(journal, &self.views, from) {
            Some(due) => due.place,
            None => journal.len(),
        }
    }

    /// A place before which nothing is due once what is in flight is answered, whatever the answer is, where it is known that
    /// no entry before this place is due. It takes no memory.
    pub fn look_if_answered(&self, journal: &Journal, from: usize) -> usize
        requires { IsIdleBefore from journal.now (peer_of self.now).views }
        ensures idle { (m : Said) → IsIdleBefore result journal.now (peer_answered journal.now (peer_of self.now) m).0.views }
        ensures within { result ≤ from }
    {
        out_until(journal, &self.views, &self.upper, from)
    }

    /// A place before which nothing is due once a heartbeat of the device is heard, where it is known that no entry before
    /// this place is due. It takes no memory.
    pub fn look_if_settled(&self, journal: &Journal, from: usize) -> usize
        requires { IsIdleBefore from journal.now (peer_of self.now).views }
        ensures idle { IsIdleBefore result journal.now (peer_settled journal.now true (peer_of self.now)).views }
        ensures within { result ≤ from }
    {
        place_until(from, first_listed(journal, self.views.rows()))
    }
}
