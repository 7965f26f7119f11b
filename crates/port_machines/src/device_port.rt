//! The port of a device at the server. Each event there is one step of the server.
ghost use Rattle.std.specs.Prelude.{◌≡◌, ◌<◌, OnErr, IfOk};
ghost use Rattle.mos_machines.specs.Steps.{ServerEvent};
ghost use Rattle.mos_machines.specs.Values.{seen};
ghost use Rattle.ncs_core.specs.State.{devices_of};
ghost use Rattle.port_replies.specs.Ports.{Asked, greets, said, server_upper};
ghost use Rattle.port_machines.specs.Steps.{IsAnswered, IsServerRefusal};

use crate::saying::{heard_answer, sent_answer, step_answer};
use mos_fields::{MosTime, NoMemory};
use mos_values::Message;
use ncs_core::Ncs;
use port_events::{PortAnswer, What};
use rundown_log::Keeper;

// The device opened a connection.
fn accepted<K: Keeper>(ncs: &mut Ncs<K>, d: u32, link: u64) -> PortAnswer
    requires { d < devices_of ncs.old }
    ensures { IsAnswered ncs.old (Asked.Steps (ServerEvent.DeviceAccepted d link) said) result ncs.new }
{
    ncs.device_accepted(d, link);
    PortAnswer::Done
}

// A message came on the connection that the device opened.
fn hear<K: Keeper>(
    ncs: &mut Ncs<K>,
    d: u32,
    link: u64,
    message: &Message,
) -> Result<PortAnswer, NoMemory>
    requires { d < devices_of ncs.old }
    ensures ok { IfOk result (λ a. IsAnswered ncs.old (Asked.Steps (ServerEvent.Hear d link (seen message.now)) said) a ncs.new) }
    ensures err { OnErr result (IsServerRefusal ncs.old ncs.new) }
{
    let heard = ncs.hear(d, link, message)?;
    Ok(heard_answer(heard))
}

// The connection that the device opened ended.
fn dropped<K: Keeper>(ncs: &mut Ncs<K>, d: u32, link: u64) -> PortAnswer
    requires { d < devices_of ncs.old }
    ensures { IsAnswered ncs.old (Asked.Steps (ServerEvent.DeviceDropped d link) said) result ncs.new }
{
    step_answer(ncs.device_dropped(d, link))
}

// The server opened a connection to the device, and greets on it.
fn dialed<K: Keeper>(ncs: &mut Ncs<K>, d: u32, link: u64, now: &MosTime) -> PortAnswer
    requires { d < devices_of ncs.old }
    ensures { IsAnswered ncs.old (Asked.Steps (ServerEvent.UpperOpened d link) (greets now.now)) result ncs.new }
{
    ncs.upper_opened(d, link);
    PortAnswer::Say(Message::Heartbeat(*now))
}

// The message that is sent next is wanted.
fn next<K: Keeper>(
    ncs: &mut Ncs<K>,
    d: u32,
    link: u64,
    now: &MosTime,
) -> Result<PortAnswer, NoMemory>
    requires { d < devices_of ncs.old }
    ensures ok { IfOk result (λ a. IsAnswered ncs.old (Asked.Steps (ServerEvent.NextSend d link now.now) said) a ncs.new) }
    ensures err { OnErr result (IsServerRefusal ncs.old ncs.new) }
{
    let sent = ncs.next_send(d, link, now)?;
    Ok(sent_answer(sent))
}

// The device answered on the server's connection.
fn answered<K: Keeper>(ncs: &mut Ncs<K>, d: u32, link: u64, message: &Message) -> PortAnswer
    requires { d < devices_of ncs.old }
    ensures { IsAnswered ncs.old (Asked.Steps (ServerEvent.UpperAnswer d link (seen message.now)) said) result ncs.new }
{
    step_answer(ncs.upper_answer(d, link, message))
}

// A heartbeat to the device is wanted.
fn beat<K: Keeper>(ncs: &mut Ncs<K>, d: u32) -> PortAnswer
    requires { d < devices_of ncs.old }
    ensures { IsAnswered ncs.old (Asked.Steps (ServerEvent.Beat d) said) result ncs.new }
{
    ncs.beat(d);
    PortAnswer::Done
}

// The server's connection to the device ended.
fn cut<K: Keeper>(ncs: &mut Ncs<K>, d: u32, link: u64) -> PortAnswer
    requires { d < devices_of ncs.old }
    ensures { IsAnswered ncs.old (Asked.Steps (ServerEvent.UpperCut d link) said) result ncs.new }
{
    step_answer(ncs.upper_cut(d, link))
}

// What happens at the port of a device.
pub fn device_port<K: Keeper>(
    ncs: &mut Ncs<K>,
    d: u32,
    link: u64,
    what: &What,
) -> Result<PortAnswer, NoMemory>
    requires { d < devices_of ncs.old }
    ensures ok { IfOk result (λ a. IsAnswered ncs.old (server_upper d link what.now) a ncs.new) }
    ensures err { OnErr result (IsServerRefusal ncs.old ncs.new) }
{
    match what {
        What::Accepted => Ok(accepted(ncs, d, link)),
        What::Heard(message) => hear(ncs, d, link, message.message()),
        What::EndedIn => Ok(dropped(ncs, d, link)),
        What::Dialed(now) => Ok(dialed(ncs, d, link, now)),
        What::Next(now) => next(ncs, d, link, now),
        What::Answered(message) => Ok(answered(ncs, d, link, message.message())),
        What::Beat => Ok(beat(ncs, d)),
        What::EndedOut => Ok(cut(ncs, d, link)),
    }
}
