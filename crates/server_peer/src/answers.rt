//! What a device answers on the server's connection.
ghost use Rattle.std.specs.Prelude.{◌≡◌, ◌<◌, Some, None};
ghost use Rattle.mos_machines.specs.Messages.Step.{Unasked};
ghost use Rattle.mos_machines.specs.Messages.{read_status};
ghost use Rattle.mos_machines.specs.Messages.Message.{RoAck as ack};
ghost use Rattle.mos_machines.specs.Server.{View as ServerView, peer_answered, peer_cut};
ghost use Rattle.mos_machines.specs.Tables.{look, peer_of};
ghost use Rattle.mos_machines.specs.Values.{seen};
ghost use Rattle.machine_answers.specs.Answers.{stepped};
ghost use Rattle.server_peer.specs.Parts.{IsOutKnown, IsFlightKnown, out_of, upper_of, IsNumbered, IsUpperNumbered, after_view, beat_answered, edit_answered, again_answered, script_answered, flight_answered, flight_view, out_view, outcome, outcome_of, idled as idled_of, put_flight, put_out, seen_tables};

use crate::after::After;
use crate::peer::Peer;
use crate::ready::is_ready_at;
use crate::statuses::{is_id, says_taken};
use crate::upper::{ServerOut, Upper};
use crate::view::Seen;
use crate::views::step;
use machine_answers::Step;
use mos_fields::Id;
use mos_values::{Message, RoAck};
use order_table::OrderTable;
use rundown_log::Journal;

// What an answer does.
#[derive(Clone, Copy)]
pub enum Outcome {
    // Nothing was asked for that it answers.
    Unasked,
    // A heartbeat was answered.
    Done,
    // An entry was answered, and this becomes of the view of its order.
    Seen(After),
}

// An answer to entry `k` of an order.
fn edit_outcome(journal: &Journal, ro: &Id, k: u64, answer: &RoAck) -> Outcome
    requires { k < 18446744073709551615 }
    ensures { (v : ServerView) → outcome_of v result ≡ edit_answered journal.now ro.now k (ack answer.now.ro (read_status answer.now.status)) }
{
    if !is_id(&answer.ro, ro) {
        return Outcome::Unasked;
    }
    let is_ready = is_ready_at(journal, ro, k);
    Outcome::Seen(After::Entry {
        taken: says_taken(is_ready, &answer.status),
        n: k + 1,
    })
}

// An answer to a READY that was sent again.
fn again_outcome(ro: &Id, m: u64, answer: &RoAck) -> Outcome
    ensures { (v : ServerView) → outcome_of v result ≡ again_answered ro.now m (ack answer.now.ro (read_status answer.now.status)) }
{
    if !is_id(&answer.ro, ro) {
        return Outcome::Unasked;
    }
    Outcome::Seen(After::Entry {
        taken: says_taken(true, &answer.status),
        n: m,
    })
}

// An answer to the script of entry `k` that was sent again.
fn script_outcome(ro: &Id, k: u64, answer: &RoAck) -> Outcome
    ensures { (v : ServerView) → outcome_of v result ≡ script_answered v ro.now k (ack answer.now.ro (read_status answer.now.status)) }
{
    if !is_id(&answer.ro, ro) {
        return Outcome::Unasked;
    }
    Outcome::Seen(After::Script {
        taken: says_taken(false, &answer.status),
        k,
    })
}

// An answer to a heartbeat.
fn beat_outcome(m: &Message) -> Outcome
    ensures { (v : ServerView) → outcome_of v result ≡ beat_answered (seen m.now) }
{
    match m {
        Message::Heartbeat(_) => Outcome::Done,
        _ => Outcome::Unasked,
    }
}

// An answer to an edit.
fn edit_answer(journal: &Journal, ro: &Id, k: u64, m: &Message) -> Outcome
    requires { k < 18446744073709551615 }
    ensures { (v : ServerView) → outcome_of v result ≡ edit_answered journal.now ro.now k (seen m.now) }
{
    match m {
        Message::RoAck(answer) => edit_outcome(journal, ro, k, answer),
        _ => Outcome::Unasked,
    }
}

// The same of a READY that was sent again.
fn again_answer(ro: &Id, m: u64, message: &Message) -> Outcome
    ensures { (v : ServerView) → outcome_of v result ≡ again_answered ro.now m (seen message.now) }
{
    match message {
        Message::RoAck(answer) => again_outcome(ro, m, answer),
        _ => Outcome::Unasked,
    }
}

// The same of a script that was sent again.
fn script_answer(ro: &Id, k: u64, message: &Message) -> Outcome
    ensures { (v : ServerView) → outcome_of v result ≡ script_answered v ro.now k (seen message.now) }
{
    match message {
        Message::RoAck(answer) => script_outcome(ro, k, answer),
        _ => Outcome::Unasked,
    }
}

// An answer to what is in flight.
fn flight_outcome(journal: &Journal, out: &ServerOut, m: &Message) -> Outcome
    requires { IsNumbered (out_of out.now) }
    ensures { (v : ServerView) → outcome_of v result ≡ flight_answered journal.now v (out_of out.now) (seen m.now) }
{
    match out {
        ServerOut::Idle => Outcome::Unasked,
        ServerOut::Edit { ro, k } => edit_answer(journal, ro, *k, m),
        ServerOut::Again { ro, m: n } => again_answer(ro, *n, m),
        ServerOut::Script { ro, k, m: _ } => script_answer(ro, *k, m),
        ServerOut::Beat => beat_outcome(m),
    }
}

// What an answer does, by the connection that it came on.
fn outcome_on(journal: &Journal, upper: &Upper, m: &Message) -> Outcome
    requires { IsUpperNumbered (upper_of upper.now) }
    ensures { (v : ServerView) → outcome_of v result ≡ outcome journal.now v (upper_of upper.now) (seen m.now) }
{
    match upper {
        Upper::Down => Outcome::Unasked,
        Upper::Greeting { link: _ } => beat_outcome(m),
        Upper::Open { link: _, out } => flight_outcome(journal, out, m),
    }
}

// Nothing is in flight any more.
fn idled(upper: &Upper) -> Upper
    ensures { upper_of result ≡ idled_of (upper_of upper.now) }
{
    match upper {
        Upper::Down => Upper::Down,
        Upper::Greeting { link } => Upper::Open {
            link: *link,
            out: ServerOut::Idle,
        },
        Upper::Open { link, out: _ } => Upper::Open {
            link: *link,
            out: ServerOut::Idle,
        },
    }
}

// Changes the view of the order of which an entry is in flight.
fn step_flight(views: &mut OrderTable<Seen>, out: &ServerOut, after: After)
    requires { IsFlightKnown (out_of out.now) views.old }
    ensures { views.new ≡ put_flight (out_of out.now) (after_view after (out_view (out_of out.now) (look ServerView.Out views.old))) views.old }
{
    match out {
        ServerOut::Edit { ro, k: _ } => step(views, ro, after),
        ServerOut::Again { ro, m: _ } => step(views, ro, after),
        ServerOut::Script { ro, k: _, m: _ } => step(views, ro, after),
        _ => {}
    }
}

fn step_out(views: &mut OrderTable<Seen>, upper: &Upper, after: After)
    requires { IsOutKnown (upper_of upper.now) views.old }
    ensures { views.new ≡ put_out (upper_of upper.now) (after_view after (flight_view (upper_of upper.now) (look ServerView.Out views.old))) views.old }
{
    match upper {
        Upper::Open { link: _, out } => step_flight(views, out, after),
        _ => {}
    }
}

impl Peer {
    // Nothing was asked for that this answers; the connection counts as ended.
    fn unasked(&mut self) -> Step
        ensures answer { result ≡ stepped Unasked }
        ensures step { peer_of self.new ≡ peer_cut (peer_of self.old) }
    {
        self.upper_cut();
        Step::Unasked
    }

    // A heartbeat was answered.
    fn done(&mut self)
        ensures { self.new ≡ seen_tables self.old None }
    {
        self.upper = idled(&self.upper);
    }

    // An entry was answered.
    fn see(&mut self, after: After)
        ensures { self.new ≡ seen_tables self.old (Some (after_view after (flight_view self.old.upper (look ServerView.Out self.old.views)))) }
    {
        step_out(&mut self.views, &self.upper, after);
        self.upper = idled(&self.upper);
    }

    // What an answer does.
    fn outcome(&self, journal: &Journal, m: &Message) -> Outcome
        ensures { (v : ServerView) → outcome_of v result ≡ outcome journal.now v (peer_of self.now).upper (seen m.now) }
    {
        outcome_on(journal, &self.upper, m)
    }

    /// Takes an answer that came on the server's connection.
    ///
    /// A heartbeat answers a heartbeat, and the first one opens the connection. A roAck of the order answers an entry: with
    /// `OK`, and `NO DECK` to a READY, the device holds the order after that entry, and a script that was sent again is no
    /// longer due; with any other text nothing is known of the order. `Unasked` comes exactly where nothing is in flight that this answers; the connection counts as ended then. It
    /// takes no memory.
    pub fn answered(&mut self, journal: &Journal, m: &Message) -> Step
        ensures answer { result ≡ stepped (peer_answered journal.now (peer_of self.old) (seen m.now)).1 }
        ensures step { peer_of self.new ≡ (peer_answered journal.now (peer_of self.old) (seen m.now)).0 }
    {
        match self.outcome(journal, m) {
            Outcome::Unasked => self.unasked(),
            Outcome::Done => {
                self.done();
                Step::Taken
            }
            Outcome::Seen(after) => {
                self.see(after);
                Step::Taken
            }
        }
    }
}
