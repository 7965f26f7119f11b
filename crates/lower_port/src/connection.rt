//! The lower connection that this end opened.
ghost use Rattle.std.specs.Prelude.{◌≡◌, None, IfOk, OnOk, OnErr};
ghost use Rattle.mos_machines.specs.Messages.{is_link};
ghost use Rattle.mos_values.specs.declared.message.Message.TheVariants as carried;
ghost use Rattle.port_events.specs.declared.answer.PortAnswer.TheVariants as answers;
ghost use Rattle.lower_port.specs.Connections.{all_due, answered as answered_of, beat as beat_of, dialed as dialed_of, dialed_asking as dialed_asking_of, due_sending, ended as ended_of, in_flight_as, next as next_of, sent_idle, taken_if, unopened, with_due, without_link};
ghost use Rattle.lower_port.specs.declared.due.Due.TheVariants as dues;
ghost use Rattle.lower_port.specs.declared.in_flight.InFlight.TheVariants as flights;

use crate::due::Due;
use crate::in_flight::InFlight;
use mos_fields::{MosTime, NoMemory, Samples};
use mos_values::{Boxed, Message};
use object_table::ObjectTable;
use port_events::PortAnswer;
use std::alloc::Global;
use std::marker::Model;

/// The lower connection that this end opened: which one is current, what is in flight on it, and what is sent next.
///
/// A call for a connection that isn't the current one is answered `Stale` and changes nothing.
#[derive(Drop)]
pub struct OwnConnection {
    link: Option<u64>,
    in_flight: InFlight,
    note: bool,
    due: Due,
}

impl Model for OwnConnection {
    ghost use Rattle.lower_port.specs.Connections.{OwnState};

    ghost Value = { OwnState };

    ghost view = { λ c. record { link = c.link; in_flight = c.in_flight; note = c.note; due = c.due } };
}

impl OwnConnection {
    /// No connection was opened yet, and nothing is due.
    pub fn new() -> Self
        ensures { result ≡ unopened }
    {
        OwnConnection {
            link: None,
            in_flight: InFlight::Nothing,
            note: false,
            due: Due::Nothing,
        }
    }

    /// This connection was opened: it is the current one, and idle. What is due stays.
    pub fn dialed(&mut self, link: u64) -> PortAnswer
        ensures answer { result ≡ (dialed_of link self.old).0 }
        ensures step { self.new ≡ (dialed_of link self.old).1 }
    {
        self.link = Some(link);
        self.in_flight = InFlight::Nothing;
        PortAnswer::Done
    }

    /// The same at the server, where the request of all objects is due then.
    pub fn dialed_asking(&mut self, link: u64) -> PortAnswer
        ensures answer { result ≡ (dialed_asking_of link self.old).0 }
        ensures step { self.new ≡ (dialed_asking_of link self.old).1 }
    {
        self.due = Due::Request;
        self.dialed(link)
    }

    // Whether this connection is the current one.
    fn is_current(&self, link: u64) -> bool
        ensures { result ≡ is_link self.now.link link }
    {
        match self.link {
            Some(number) => number == link,
            None => false,
        }
    }

    /// This connection ended. What was in flight isn't sent again; what is due stays.
    pub fn ended(&mut self, link: u64) -> PortAnswer
        ensures answer { result ≡ (ended_of link self.old).0 }
        ensures step { self.new ≡ (ended_of link self.old).1 }
    {
        if !self.is_current(link) {
            return PortAnswer::Stale;
        }
        self.leave();
        self.note = false;
        PortAnswer::Taken
    }

    // There is no connection any more.
    fn leave(&mut self)
        ensures { self.new ≡ without_link self.old.note self.old }
    {
        self.link = None;
        self.in_flight = InFlight::Nothing;
    }

    /// A heartbeat is to be sent when nothing else is due.
    pub fn beat(&mut self, link: u64) -> PortAnswer
        ensures answer { result ≡ (beat_of link self.old).0 }
        ensures step { self.new ≡ (beat_of link self.old).1 }
    {
        if !self.is_current(link) {
            return PortAnswer::Stale;
        }
        self.note = true;
        PortAnswer::Done
    }

    /// An answer came. Where it doesn't answer what is in flight, the connection counts as ended; the note and what is due
    /// stay.
    pub fn answered(&mut self, link: u64, message: &Message) -> PortAnswer
        ensures answer { result ≡ (answered_of link message.now self.old).0 }
        ensures step { self.new ≡ (answered_of link message.now self.old).1 }
    {
        if !self.is_current(link) {
            return PortAnswer::Stale;
        }
        let fits = self.in_flight.fits(message);
        self.take_if(fits)
    }

    fn take_if(&mut self, fits: bool) -> PortAnswer
        ensures answer { result ≡ (taken_if fits self.old).0 }
        ensures step { self.new ≡ (taken_if fits self.old).1 }
    {
        if fits {
            self.in_flight = InFlight::Nothing;
            PortAnswer::Taken
        } else {
            self.leave();
            PortAnswer::Unasked
        }
    }

    /// The message that is sent next, at this time, of these objects: nothing while an answer is awaited, else what is due,
    /// else a heartbeat where one was asked for.
    ///
    /// The only error is that memory runs out; the connection then stays as it was.
    pub fn next(
        &mut self,
        alloc: Global,
        link: u64,
        now: &MosTime,
        objects: &ObjectTable,
    ) -> Result<PortAnswer, NoMemory>
        ensures answer { IfOk result (λ a. a ≡ (next_of objects.now link now.now self.old).0) }
        ensures step { OnOk result (self.new ≡ (next_of objects.now link now.now self.old).1) }
        ensures err { OnErr result (self.new ≡ self.old) }
    {
        if !self.is_current(link) {
            return Ok(PortAnswer::Stale);
        }
        match self.in_flight {
            InFlight::Nothing => self.send(alloc, now, objects),
            _ => Ok(PortAnswer::Nothing),
        }
    }

    // On an idle connection.
    fn send(
        &mut self,
        alloc: Global,
        now: &MosTime,
        objects: &ObjectTable,
    ) -> Result<PortAnswer, NoMemory>
        ensures answer { IfOk result (λ a. a ≡ (sent_idle now.now self.old self.old.note (due_sending objects.now self.old.due)).0) }
        ensures step { OnOk result (self.new ≡ (sent_idle now.now self.old self.old.note (due_sending objects.now self.old.due)).1) }
        ensures err { OnErr result (self.new ≡ self.old) }
    {
        match self.due {
            Due::Nothing => Ok(self.send_beat(now)),
            Due::Request => Ok(self.send_request()),
            Due::List => self.send_list(objects),
            Due::Objects(at) => self.send_object(alloc, now, objects, at),
        }
    }

    // A heartbeat, where one was asked for.
    fn send_beat(&mut self, now: &MosTime) -> PortAnswer
        ensures answer { result ≡ (sent_idle now.now self.old self.old.note None).0 }
        ensures step { self.new ≡ (sent_idle now.now self.old self.old.note None).1 }
    {
        if !self.note {
            return PortAnswer::Nothing;
        }
        self.note = false;
        self.in_flight = InFlight::Heartbeat;
        PortAnswer::Say(Message::Heartbeat(*now))
    }

    // The request of all objects.
    fn send_request(&mut self) -> PortAnswer
        ensures answer { result ≡ answers.Say (carried.MosReqAll 0) }
        ensures step { self.new ≡ in_flight_as flights.Request dues.Nothing self.old }
    {
        self.in_flight = InFlight::Request;
        self.due = Due::Nothing;
        PortAnswer::Say(Message::MosReqAll(Samples::new(0)))
    }

    // The list of all objects.
    fn send_list(&mut self, objects: &ObjectTable) -> Result<PortAnswer, NoMemory>
        ensures answer { IfOk result (λ a. a ≡ answers.Say (carried.MosListAll objects.now)) }
        ensures step { OnOk result (self.new ≡ in_flight_as flights.List dues.Nothing self.old) }
        ensures err { OnErr result (self.new ≡ self.old) }
    {
        let list = objects.list_all()?;
        self.in_flight = InFlight::List;
        self.due = Due::Nothing;
        Ok(PortAnswer::Say(Message::MosListAll(list)))
    }

    // The object at a place; behind the last one nothing is due.
    fn send_object(
        &mut self,
        alloc: Global,
        now: &MosTime,
        objects: &ObjectTable,
        at: usize,
    ) -> Result<PortAnswer, NoMemory>
        ensures answer { IfOk result (λ a. a ≡ (sent_idle now.now self.old self.old.note (due_sending objects.now (dues.Objects at))).0) }
        ensures step { OnOk result (self.new ≡ (sent_idle now.now self.old self.old.note (due_sending objects.now (dues.Objects at))).1) }
        ensures err { OnErr result (self.new ≡ self.old) }
    {
        let _count = objects.len();
        match objects.at(at) {
            Some(object) => {
                let object = Boxed::new(alloc, object.try_clone()?)?;
                self.in_flight = InFlight::Object;
                self.due = Due::Objects(at + 1);
                Ok(PortAnswer::Say(Message::MosObj(object)))
            }
            None => Ok(self.send_beat(now)),
        }
    }

    /// All objects are due, in one list where the pause is 0, else object after object. What was due before isn't any more.
    pub fn request_all(&mut self, pause: Samples)
        ensures { self.new ≡ with_due (all_due pause) self.old }
    {
        self.due = Due::all(pause);
    }
}
