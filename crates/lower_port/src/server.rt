//! The lower port of the server.
ghost use Rattle.std.specs.Prelude.{◌≡◌, IfOk, OnOk, OnErr};
ghost use Rattle.port_events.specs.declared.answer.PortAnswer.TheVariants as answers;
ghost use Rattle.lower_port.specs.Connections.{unopened};
ghost use Rattle.lower_port.specs.Servers.{server_heard, server_lower};

use crate::connection::OwnConnection;
use crate::replies::{heartbeat, not_supported, told_info};
use crate::taking::{take_list, take_object};
use mos_fields::NoMemory;
use mos_values::{MachInfo, Message};
use object_table::ObjectTable;
use port_events::{PortAnswer, What};
use std::alloc::Global;
use std::marker::Model;

/// What the server has at the lower port of a device: the device's objects, and the connection that it opened to it.
#[derive(Drop)]
pub struct ServerPort {
    own: OwnConnection,
    objects: ObjectTable,
}

impl Model for ServerPort {
    ghost use Rattle.lower_port.specs.Servers.{ServerSide};

    ghost Value = { ServerSide };

    ghost view = { λ p. record { own = p.own; objects = p.objects } };
}

// What is answered to a message. Without memory the table stays as it was.
fn hear(
    alloc: Global,
    info: &MachInfo,
    objects: &mut ObjectTable,
    message: &Message,
) -> Result<PortAnswer, NoMemory>
    ensures answer { IfOk result (λ a. a ≡ answers.Say (server_heard info.now objects.old message.now).0) }
    ensures step { OnOk result (objects.new ≡ (server_heard info.now objects.old message.now).1) }
    ensures err { OnErr result (objects.new ≡ objects.old) }
{
    match message {
        Message::MosObj(object) => take_object(alloc, objects, message, object.as_ref()),
        Message::MosListAll(list) => take_list(alloc, objects, message, list),
        Message::ReqMachInfo => told_info(alloc, info),
        Message::Heartbeat(time) => Ok(heartbeat(time)),
        _ => not_supported(alloc, message),
    }
}

impl ServerPort {
    /// A device with these objects, to which no connection was opened. It takes no memory.
    pub fn new(objects: ObjectTable) -> Self
        ensures { result ≡ record { own = unopened; objects = objects } }
    {
        ServerPort {
            own: OwnConnection::new(),
            objects,
        }
    }

    /// The device's objects.
    pub fn objects(&self) -> &ObjectTable
        ensures { result.now ≡ self.now.objects }
    {
        &self.objects
    }

    /// What an event there is answered, where this is what the server says of itself.
    ///
    /// Objects of a mosObj or a mosListAll are taken in order. A mosAck says that all were; `FULL` says that there was no
    /// room for one, and those before it stay taken. The only error is that memory runs out; all is then as it was.
    pub fn take(
        &mut self,
        alloc: Global,
        info: &MachInfo,
        link: u64,
        what: &What,
    ) -> Result<PortAnswer, NoMemory>
        ensures answer { IfOk result (λ a. a ≡ (server_lower info.now link what.now self.old).0) }
        ensures step { OnOk result (self.new ≡ (server_lower info.now link what.now self.old).1) }
        ensures err { OnErr result (self.new ≡ self.old) }
    {
        match what {
            What::Accepted => Ok(PortAnswer::Done),
            What::Heard(message) => hear(alloc, info, &mut self.objects, message.message()),
            What::EndedIn => Ok(PortAnswer::Taken),
            What::Dialed(_) => Ok(self.own.dialed_asking(link)),
            What::Next(now) => self.own.next(alloc, link, now, &self.objects),
            What::Answered(message) => Ok(self.own.answered(link, message.message())),
            What::Beat => Ok(self.own.beat(link)),
            What::EndedOut => Ok(self.own.ended(link)),
        }
    }
}
