//! The events that the server is part of: what it does with the connections of one device.
ghost use Rattle.std.specs.Prelude.{◌≡◌, ◌+◌, ◌<◌, ℕ, length, List, OnOk, IfOk, Some, true, false};
ghost use Rattle.mos_edits.specs.Entries.{AreEntries};
ghost use Rattle.mos_machines.specs.Messages.{Packet as Said, Step as MachineStep};
ghost use Rattle.mos_machines.specs.Server.{peer_hear, peer_next, upper_link};
ghost use Rattle.machine_answers.specs.Answers.{stepped};
ghost use Rattle.ncs_core.specs.State.{ncs_of, devices_of};
ghost use Rattle.world_scripts.specs.WorldEvents.{pairing_event_of};
ghost use Rattle.world_scripts.specs.Outcomes.{outcome_of};
ghost use Rattle.world_laws.specs.Outcomes.{outcome_of as outcome_told};
ghost use Rattle.world_laws.specs.World.{Connection as Line, Pairing, PairingEvent as rows, front, hears_front, opens_one, own_beat as own_beat_of, own_time as own_time_of, sends_on, takes_front};
ghost use Rattle.world_laws.specs.World.Effect.{Stepped};
ghost use Rattle.world_parts.specs.Matching.{AreReadable, Carries, HaveEncodings, IsOpened, LeavesOthers, MatchesConnections};
ghost use Rattle.world_stage.specs.Steps.{IsHeardAnswered, IsReady, IsServerEventStep, LeavesServer, ServerEventStep, is_of_device as is_of_device_of};
ghost use Rattle.world_parts.specs.declared.connection.Connection.{Connection as Connected};

use crate::saying::say_to_device;
use machine_answers::{Heard, Sent, Step};
use mos_fields::{NoMemory, let_go};
use mos_values::Message;
use ncs_core::Ncs;
use rundown_log::MemKeeper;
use std::alloc::Global;
use world_parts::{
    Connection, Opener, Packet, PacketTag, accept, answer_tag, open, own_time, packet_tag,
    take_to_server, write_to_device,
};
use world_scripts::{Outcome, PairingEvent};

/// A heartbeat that an end sends of itself.
fn own_beat() -> Packet
    ensures { Carries result own_beat_of }
{
    Packet {
        message: Message::Heartbeat(own_time()),
        tag: PacketTag::Untagged,
    }
}

/// The server opens a connection to a device and writes a heartbeat on it. Devices are numbered from 0 here.
pub fn open_to(
    alloc: Global,
    ncs: &mut Ncs<MemKeeper>,
    connections: &mut Vec<Connection>,
    d: u32,
) -> Result<Outcome, NoMemory>
    requires within { d < devices_of ncs.old }
    requires few { d < 64 }
    ensures server { OnOk result (LeavesServer ncs.old ncs.new d) }
    ensures count { OnOk result (length connections.new.items ≡ length connections.old.items + 1) }
    ensures others { OnOk result (LeavesOthers connections.old.items connections.new.items (d + 1)) }
    ensures step { IfOk result (λ o. (l : Pairing) → (ncs_of ncs.old).peers d ≡ l.peer → MatchesConnections connections.old.items (d + 1) l.connections → ServerEventStep (length connections.old.items + 1) l rows.OpenTo ncs.old ncs.new connections.new.items d o) }
{
    let c = open(alloc, connections, d + 1, Opener::Server)?;
    write_to_device(alloc, connections, d + 1, c, own_beat())?;
    ncs.upper_opened(d, c);
    Ok(Outcome::Connection { c })
}

/// The server's connection ends, as the server sees it.
pub fn cut(ncs: &mut Ncs<MemKeeper>, d: u32) -> Outcome
    requires within { d < devices_of ncs.old }
    requires few { d < 64 }
    ensures server { LeavesServer ncs.old ncs.new d }
    ensures step { (n : ℕ) (xs : List Connected) (l : Pairing) → (ncs_of ncs.old).peers d ≡ l.peer → MatchesConnections xs (d + 1) l.connections → ServerEventStep n l rows.Cut ncs.old ncs.new xs d result }
{
    match ncs.upper(d).link() {
        Some(c) => {
            ncs.upper_cut(d, c);
            Outcome::Done
        }
        None => Outcome::Impossible,
    }
}

/// The server writes what is due on its connection `c`.
fn send_on(
    alloc: Global,
    ncs: &mut Ncs<MemKeeper>,
    connections: &mut [Connection],
    d: u32,
    c: u64,
) -> Result<Outcome, NoMemory>
    requires within { d < devices_of ncs.old }
    requires few { d < 64 }
    requires linked { upper_link ((ncs_of ncs.old).peers d).upper ≡ Some c }
    ensures server { OnOk result (LeavesServer ncs.old ncs.new d) }
    ensures count { length connections.new ≡ length connections.old }
    ensures others { OnOk result (LeavesOthers connections.old connections.new (d + 1)) }
    ensures step { IfOk result (λ o. (l : Pairing) → (ncs_of ncs.old).peers d ≡ l.peer → MatchesConnections connections.old (d + 1) l.connections → IsReady ncs.old.server.journal l → IsServerEventStep l (sends_on l (Some c) (peer_next ncs.old.server.journal own_time_of l.peer)) ncs.new connections.new d o) }
{
    match ncs.next_send(d, c, &own_time())? {
        Sent::Out { message, tag } => {
            let tag = packet_tag(tag);
            let outcome = say_to_device(alloc, connections, d + 1, c, Packet { message, tag })?;
            Ok(outcome)
        }
        Sent::Nothing => Ok(Outcome::Nothing),
        Sent::Stale => unreachable!(),
    }
}

/// The server writes what is due on the connection that it opened.
pub fn send(
    alloc: Global,
    ncs: &mut Ncs<MemKeeper>,
    connections: &mut [Connection],
    d: u32,
) -> Result<Outcome, NoMemory>
    requires within { d < devices_of ncs.old }
    requires few { d < 64 }
    ensures server { OnOk result (LeavesServer ncs.old ncs.new d) }
    ensures count { length connections.new ≡ length connections.old }
    ensures others { OnOk result (LeavesOthers connections.old connections.new (d + 1)) }
    ensures step { IfOk result (λ o. (n : ℕ) (l : Pairing) → (ncs_of ncs.old).peers d ≡ l.peer → MatchesConnections connections.old (d + 1) l.connections → IsReady ncs.old.server.journal l → ServerEventStep n l rows.Send ncs.old ncs.new connections.new d o) }
{
    match ncs.upper(d).link() {
        Some(c) => Ok(send_on(alloc, ncs, connections, d, c)?),
        None => Ok(Outcome::Impossible),
    }
}

/// The server takes the first unread answer on its connection `c`.
fn take_back_on(
    alloc: Global,
    ncs: &mut Ncs<MemKeeper>,
    connections: &mut [Connection],
    d: u32,
    c: u64,
) -> Result<Outcome, NoMemory>
    requires within { d < devices_of ncs.old }
    requires few { d < 64 }
    requires linked { upper_link ((ncs_of ncs.old).peers d).upper ≡ Some c }
    requires readable { AreReadable connections.old (d + 1) }
    ensures server { OnOk result (LeavesServer ncs.old ncs.new d) }
    ensures count { length connections.new ≡ length connections.old }
    ensures others { OnOk result (LeavesOthers connections.old connections.new (d + 1)) }
    ensures step { IfOk result (λ o. (l : Pairing) → (ncs_of ncs.old).peers d ≡ l.peer → MatchesConnections connections.old (d + 1) l.connections → IsOpened (l.connections c) → HaveEncodings l.connections → IsServerEventStep l (takes_front ncs.old.server.journal l c (l.connections c) (front (l.connections c).to_server)) ncs.new connections.new d o) }
{
    match take_to_server(alloc, connections, d + 1, c)? {
        Some(packet) => {
            let step = ncs.upper_answer(d, c, &packet.message);
            let_go(packet);
            Ok(told_step(step))
        }
        None => Ok(Outcome::Impossible),
    }
}

/// What is told of an answer that came on a current connection.
fn told_step(step: Step) -> Outcome
    ensures { (s : MachineStep) → step ≡ stepped s → outcome_of result ≡ outcome_told (Stepped s) }
{
    match step {
        Step::Taken => Outcome::Taken,
        Step::Unasked => Outcome::Unasked,
        Step::Stale => Outcome::Impossible,
    }
}

/// The server takes the first unread answer on the connection that it opened.
pub fn take_back(
    alloc: Global,
    ncs: &mut Ncs<MemKeeper>,
    connections: &mut [Connection],
    d: u32,
) -> Result<Outcome, NoMemory>
    requires within { d < devices_of ncs.old }
    requires few { d < 64 }
    requires readable { AreReadable connections.old (d + 1) }
    ensures server { OnOk result (LeavesServer ncs.old ncs.new d) }
    ensures count { length connections.new ≡ length connections.old }
    ensures others { OnOk result (LeavesOthers connections.old connections.new (d + 1)) }
    ensures step { IfOk result (λ o. (n : ℕ) (l : Pairing) → (ncs_of ncs.old).peers d ≡ l.peer → MatchesConnections connections.old (d + 1) l.connections → IsReady ncs.old.server.journal l → ServerEventStep n l rows.Back ncs.old ncs.new connections.new d o) }
{
    match ncs.upper(d).link() {
        Some(c) => Ok(take_back_on(alloc, ncs, connections, d, c)?),
        None => Ok(Outcome::Impossible),
    }
}

/// The server admits connection `c` of the device.
pub fn admit(ncs: &mut Ncs<MemKeeper>, connections: &mut [Connection], d: u32, c: u64) -> Outcome
    requires within { d < devices_of ncs.old }
    requires few { d < 64 }
    ensures server { LeavesServer ncs.old ncs.new d }
    ensures count { length connections.new ≡ length connections.old }
    ensures others { LeavesOthers connections.old connections.new (d + 1) }
    ensures step { (n : ℕ) (l : Pairing) → (ncs_of ncs.old).peers d ≡ l.peer → MatchesConnections connections.old (d + 1) l.connections → ServerEventStep n l (rows.Admit c) ncs.old ncs.new connections.new d result }
{
    if !accept(connections, d + 1, c, Opener::Device) {
        return Outcome::Impossible;
    }
    ncs.device_accepted(d, c);
    Outcome::Done
}

/// The server hears a packet that came on the device's connection `c`: its answer, as it is written.
fn hear_packet(
    ncs: &mut Ncs<MemKeeper>,
    d: u32,
    c: u64,
    packet: &Packet,
) -> Result<Packet, NoMemory>
    requires within { d < devices_of ncs.old }
    requires few { d < 64 }
    requires linked { ((ncs_of ncs.old).peers d).link ≡ Some c }
    ensures server { OnOk result (LeavesServer ncs.old ncs.new d) }
    ensures heard { IfOk result (λ a. (q : Said) → Carries packet.now q → AreEntries ncs.old.server.journal → Carries a (peer_hear ncs.old.server.journal ((ncs_of ncs.old).peers d) q.message).1 × ((ncs_of ncs.new).peers d ≡ (peer_hear ncs.old.server.journal ((ncs_of ncs.old).peers d) q.message).0)) }
{
    match ncs.hear(d, c, &packet.message)? {
        Heard::Say(message) => {
            match answer_tag(ncs, &packet.message, &message) {
                Ok(tag) => Ok(Packet { message, tag }),
                Err(_) => {
                    let_go(message);
                    Err(NoMemory)
                }
            }
        }
        Heard::Stale => unreachable!(),
    }
}

/// The same of a packet that is let go.
fn hear_one(ncs: &mut Ncs<MemKeeper>, d: u32, c: u64, packet: Packet) -> Result<Packet, NoMemory>
    requires within { d < devices_of ncs.old }
    requires few { d < 64 }
    requires linked { ((ncs_of ncs.old).peers d).link ≡ Some c }
    ensures server { OnOk result (LeavesServer ncs.old ncs.new d) }
    ensures heard { IfOk result (λ a. (q : Said) → Carries packet q → AreEntries ncs.old.server.journal → Carries a (peer_hear ncs.old.server.journal ((ncs_of ncs.old).peers d) q.message).1 × ((ncs_of ncs.new).peers d ≡ (peer_hear ncs.old.server.journal ((ncs_of ncs.old).peers d) q.message).0)) }
{
    let answer = hear_packet(ncs, d, c, &packet);
    let_go(packet);
    answer
}

/// The server hears a packet, and writes its answer.
fn hear_and_answer(
    alloc: Global,
    ncs: &mut Ncs<MemKeeper>,
    connections: &mut [Connection],
    d: u32,
    c: u64,
    packet: Packet,
) -> Result<Outcome, NoMemory>
    requires within { d < devices_of ncs.old }
    requires few { d < 64 }
    requires linked { ((ncs_of ncs.old).peers d).link ≡ Some c }
    ensures server { OnOk result (LeavesServer ncs.old ncs.new d) }
    ensures count { length connections.new ≡ length connections.old }
    ensures others { OnOk result (LeavesOthers connections.old connections.new (d + 1)) }
    ensures heard { IfOk result (λ o. (q : Said) (lines : ℕ → Line) → Carries packet q → AreEntries ncs.old.server.journal → MatchesConnections connections.old (d + 1) lines → IsOpened (lines c) → IsHeardAnswered ncs.old ncs.new q connections.new d c lines o) }
{
    let answer = hear_one(ncs, d, c, packet)?;
    let outcome = say_to_device(alloc, connections, d + 1, c, answer)?;
    Ok(outcome)
}

/// The server hears the first unread message on the device's connection `c`.
fn hear_on(
    alloc: Global,
    ncs: &mut Ncs<MemKeeper>,
    connections: &mut [Connection],
    d: u32,
    c: u64,
) -> Result<Outcome, NoMemory>
    requires within { d < devices_of ncs.old }
    requires few { d < 64 }
    requires linked { ((ncs_of ncs.old).peers d).link ≡ Some c }
    requires readable { AreReadable connections.old (d + 1) }
    ensures server { OnOk result (LeavesServer ncs.old ncs.new d) }
    ensures count { length connections.new ≡ length connections.old }
    ensures others { OnOk result (LeavesOthers connections.old connections.new (d + 1)) }
    ensures step { IfOk result (λ o. (l : Pairing) → (ncs_of ncs.old).peers d ≡ l.peer → MatchesConnections connections.old (d + 1) l.connections → AreEntries ncs.old.server.journal → IsOpened (l.connections c) → HaveEncodings l.connections → IsServerEventStep l (hears_front ncs.old.server.journal l c (l.connections c) (front (l.connections c).to_server)) ncs.new connections.new d o) }
{
    match take_to_server(alloc, connections, d + 1, c)? {
        Some(packet) => {
            let outcome = hear_and_answer(alloc, ncs, connections, d, c, packet)?;
            Ok(outcome)
        }
        None => Ok(Outcome::Impossible),
    }
}

/// The server hears the first unread message on the connection that the device opened, and writes its answer.
pub fn hear(
    alloc: Global,
    ncs: &mut Ncs<MemKeeper>,
    connections: &mut [Connection],
    d: u32,
) -> Result<Outcome, NoMemory>
    requires within { d < devices_of ncs.old }
    requires few { d < 64 }
    requires readable { AreReadable connections.old (d + 1) }
    ensures server { OnOk result (LeavesServer ncs.old ncs.new d) }
    ensures count { length connections.new ≡ length connections.old }
    ensures others { OnOk result (LeavesOthers connections.old connections.new (d + 1)) }
    ensures step { IfOk result (λ o. (n : ℕ) (l : Pairing) → (ncs_of ncs.old).peers d ≡ l.peer → MatchesConnections connections.old (d + 1) l.connections → IsReady ncs.old.server.journal l → ServerEventStep n l rows.Hear ncs.old ncs.new connections.new d o) }
{
    match ncs.device_link(d) {
        Some(c) => Ok(hear_on(alloc, ncs, connections, d, c)?),
        None => Ok(Outcome::Impossible),
    }
}

/// The connection that the device opened ends, as the server sees it.
pub fn miss(ncs: &mut Ncs<MemKeeper>, d: u32) -> Outcome
    requires within { d < devices_of ncs.old }
    requires few { d < 64 }
    ensures server { LeavesServer ncs.old ncs.new d }
    ensures step { (n : ℕ) (xs : List Connected) (l : Pairing) → (ncs_of ncs.old).peers d ≡ l.peer → MatchesConnections xs (d + 1) l.connections → ServerEventStep n l rows.Miss ncs.old ncs.new xs d result }
{
    match ncs.device_link(d) {
        Some(c) => {
            ncs.device_dropped(d, c);
            Outcome::Done
        }
        None => Outcome::Impossible,
    }
}

/// The server is asked for a heartbeat.
pub fn beat(ncs: &mut Ncs<MemKeeper>, d: u32) -> Outcome
    requires within { d < devices_of ncs.old }
    requires few { d < 64 }
    ensures server { LeavesServer ncs.old ncs.new d }
    ensures step { (n : ℕ) (xs : List Connected) (l : Pairing) → (ncs_of ncs.old).peers d ≡ l.peer → MatchesConnections xs (d + 1) l.connections → ServerEventStep n l rows.Beat ncs.old ncs.new xs d result }
{
    if !ncs.upper(d).is_open() {
        return Outcome::Impossible;
    }
    ncs.beat(d);
    Outcome::Done
}

/// An event that the server is part of, and that opens no connection.
fn event_on(
    alloc: Global,
    ncs: &mut Ncs<MemKeeper>,
    connections: &mut [Connection],
    d: u32,
    event: &PairingEvent,
) -> Result<Outcome, NoMemory>
    requires within { d < devices_of ncs.old }
    requires few { d < 64 }
    requires server { is_of_device_of (pairing_event_of event.now) ≡ false }
    requires opens { opens_one (pairing_event_of event.now) ≡ 0 }
    requires readable { AreReadable connections.old (d + 1) }
    ensures server { OnOk result (LeavesServer ncs.old ncs.new d) }
    ensures count { length connections.new ≡ length connections.old }
    ensures others { OnOk result (LeavesOthers connections.old connections.new (d + 1)) }
    ensures step { IfOk result (λ o. (n : ℕ) (l : Pairing) → (ncs_of ncs.old).peers d ≡ l.peer → MatchesConnections connections.old (d + 1) l.connections → IsReady ncs.old.server.journal l → ServerEventStep n l (pairing_event_of event.now) ncs.old ncs.new connections.new d o) }
{
    match event {
        PairingEvent::Cut => Ok(cut(ncs, d)),
        PairingEvent::Send => Ok(send(alloc, ncs, connections, d)?),
        PairingEvent::Back => Ok(take_back(alloc, ncs, connections, d)?),
        PairingEvent::Admit { c } => Ok(admit(ncs, connections, d, *c)),
        PairingEvent::Hear => Ok(hear(alloc, ncs, connections, d)?),
        PairingEvent::Miss => Ok(miss(ncs, d)),
        PairingEvent::Beat => Ok(beat(ncs, d)),
        _ => unreachable!(),
    }
}

/// An event that the server is part of.
pub fn server_event(
    alloc: Global,
    ncs: &mut Ncs<MemKeeper>,
    connections: &mut Vec<Connection>,
    d: u32,
    event: &PairingEvent,
) -> Result<Outcome, NoMemory>
    requires within { d < devices_of ncs.old }
    requires few { d < 64 }
    requires server { is_of_device_of (pairing_event_of event.now) ≡ false }
    requires readable { AreReadable connections.old.items (d + 1) }
    ensures server { OnOk result (LeavesServer ncs.old ncs.new d) }
    ensures count { OnOk result (length connections.new.items ≡ length connections.old.items + opens_one (pairing_event_of event.now)) }
    ensures others { OnOk result (LeavesOthers connections.old.items connections.new.items (d + 1)) }
    ensures step { IfOk result (λ o. (l : Pairing) → (ncs_of ncs.old).peers d ≡ l.peer → MatchesConnections connections.old.items (d + 1) l.connections → IsReady ncs.old.server.journal l → ServerEventStep (length connections.old.items + 1) l (pairing_event_of event.now) ncs.old ncs.new connections.new.items d o) }
{
    match event {
        PairingEvent::OpenTo => Ok(open_to(alloc, ncs, connections, d)?),
        _ => Ok(event_on(alloc, ncs, connections, d, event)?),
    }
}
