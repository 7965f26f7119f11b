//! The events that a device is part of: what it does with its connections and its gateway.
ghost use Rattle.std.specs.Prelude.{◌≡◌, ◌+◌, ℕ, length, List, OnOk, IfOk, true, Some};
ghost use Rattle.mos_machines.specs.Device.{gate_got, gate_next};
ghost use Rattle.mos_machines.specs.Messages.{Packet as Said};
ghost use Rattle.mos_machines.specs.Tables.{gate_of};
ghost use Rattle.mos_edits.specs.Entries.{Entry};
ghost use Rattle.world_scripts.specs.WorldEvents.{pairing_event_of};
ghost use Rattle.world_scripts.specs.Outcomes.{outcome_of};
ghost use Rattle.world_laws.specs.Outcomes.{outcome_of as outcome_told};
ghost use Rattle.world_laws.specs.World.{Connection as Line, Pairing, PairingEvent as rows, asks_on, front, gets_front, opens_one, own_time as own_time_of, reads_front};
ghost use Rattle.world_laws.specs.World.Effect.{Stepped};
ghost use Rattle.world_laws.specs.Reached.{HasLinks};
ghost use Rattle.world_parts.specs.Matching.{AreReadable, Carries, HaveEncodings, IsOpened, LeavesOthers, MatchesConnections, MatchesGateway};
ghost use Rattle.world_stage.specs.Steps.{GatewayStep, IsGatewayStep, IsReadAnswered, after_got, after_read, is_of_device as is_of_device_of, read_answer};
ghost use Rattle.world_parts.specs.declared.connection.Connection.{Connection as Connected};
ghost use Rattle.world_parts.specs.declared.packet.PacketTag.TheVariants as tags;

use crate::saying::say_to_server;
use gateway_core::DeckState;
use machine_answers::{Heard, Sent, Step};
use mos_fields::{Id, NoMemory, let_go};
use mos_values::Message;
use order_table::OrderTable;
use std::alloc::Global;
use std::mem::replace;
use world_parts::{
    Connection, Gateway, Opener, Packet, PacketTag, accept as accept_connection, apply_list,
    apply_read, is_in_step, open, own_time, take_to_device,
};
use world_scripts::{Outcome, PairingEvent};

/// A packet whose message is about nothing that no byte carries.
fn untagged(message: Message) -> Packet
    ensures { result ≡ record { message = message; tag = tags.Untagged } }
{
    Packet {
        message,
        tag: PacketTag::Untagged,
    }
}

/// The device accepts connection `c` of the server.
pub fn accept(gateway: &mut Gateway, connections: &mut [Connection], d: u32, c: u64) -> Outcome
    ensures count { length connections.new ≡ length connections.old }
    ensures others { LeavesOthers connections.old connections.new d }
    ensures step { (journal : List Entry) (n : ℕ) (l : Pairing) → MatchesGateway gateway.old l → MatchesConnections connections.old d l.connections → GatewayStep journal n l (rows.Accept c) gateway.new connections.new d result }
{
    if !accept_connection(connections, d, c, Opener::Server) {
        return Outcome::Impossible;
    }
    gateway.gate.upper_accepted(c);
    Outcome::Done
}

/// The connection of the server ends, as the device sees it.
pub fn leave(gateway: &mut Gateway) -> Outcome
    ensures { (journal : List Entry) (n d : ℕ) (xs : List Connected) (l : Pairing) → MatchesGateway gateway.old l → MatchesConnections xs d l.connections → GatewayStep journal n l rows.Leave gateway.new xs d result }
{
    match gateway.gate.upper_link() {
        Some(c) => {
            gateway.gate.upper_left(c);
            Outcome::Done
        }
        None => Outcome::Impossible,
    }
}

/// The device reads a message that came on connection `c`: its answer.
fn answer(gateway: &mut Gateway, c: u64, packet: &Packet) -> Result<Message, NoMemory>
    requires { (gate_of gateway.old.gate).upper ≡ Some c }
    ensures { IfOk result (λ a. (l : Pairing) (q : Said) → MatchesGateway gateway.old l → Carries packet.now q → Carries (record { message = a; tag = tags.Untagged }) (read_answer l q) × MatchesGateway gateway.new (after_read l q)) }
{
    let in_step = is_in_step(&gateway.gate, &packet.tag);
    match gateway.gate.read_upper(c, &packet.message, gateway.decks)? {
        Heard::Say(answer) => match apply_read(&mut gateway.applied, in_step, packet, &answer) {
            Ok(()) => Ok(answer),
            Err(_) => {
                let_go(answer);
                Err(NoMemory)
            }
        },
        Heard::Stale => unreachable!(),
    }
}

/// The same of a packet that is let go.
fn answer_to(gateway: &mut Gateway, c: u64, packet: Packet) -> Result<Message, NoMemory>
    requires { (gate_of gateway.old.gate).upper ≡ Some c }
    ensures { IfOk result (λ a. (l : Pairing) (q : Said) → MatchesGateway gateway.old l → Carries packet q → Carries (record { message = a; tag = tags.Untagged }) (read_answer l q) × MatchesGateway gateway.new (after_read l q)) }
{
    let said = answer(gateway, c, &packet);
    let_go(packet);
    said
}

/// The device reads a packet that came on connection `c`, and writes its answer.
fn read_packet(
    alloc: Global,
    gateway: &mut Gateway,
    connections: &mut [Connection],
    d: u32,
    c: u64,
    packet: Packet,
) -> Result<Outcome, NoMemory>
    requires { (gate_of gateway.old.gate).upper ≡ Some c }
    ensures count { length connections.new ≡ length connections.old }
    ensures others { OnOk result (LeavesOthers connections.old connections.new d) }
    ensures read { IfOk result (λ o. (l : Pairing) (q : Said) (lines : ℕ → Line) → MatchesGateway gateway.old l → Carries packet q → MatchesConnections connections.old d lines → IsOpened (lines c) → IsReadAnswered l q gateway.new connections.new d c lines o) }
{
    let message = answer_to(gateway, c, packet)?;
    let outcome = say_to_server(alloc, connections, d, c, untagged(message))?;
    Ok(outcome)
}

/// The device reads the first unread message on connection `c`.
fn read_on(
    alloc: Global,
    gateway: &mut Gateway,
    connections: &mut [Connection],
    d: u32,
    c: u64,
) -> Result<Outcome, NoMemory>
    requires linked { (gate_of gateway.old.gate).upper ≡ Some c }
    requires readable { AreReadable connections.old d }
    ensures count { length connections.new ≡ length connections.old }
    ensures others { OnOk result (LeavesOthers connections.old connections.new d) }
    ensures step { IfOk result (λ o. (l : Pairing) → MatchesGateway gateway.old l → MatchesConnections connections.old d l.connections → IsOpened (l.connections c) → HaveEncodings l.connections → IsGatewayStep l (reads_front l c (l.connections c) (front (l.connections c).to_device)) gateway.new connections.new d o) }
{
    match take_to_device(alloc, connections, d, c)? {
        Some(packet) => {
            let outcome = read_packet(alloc, gateway, connections, d, c, packet)?;
            Ok(outcome)
        }
        None => Ok(Outcome::Impossible),
    }
}

/// The device reads the first unread message on the connection of the server, and writes its answer.
pub fn read(
    alloc: Global,
    gateway: &mut Gateway,
    connections: &mut [Connection],
    d: u32,
) -> Result<Outcome, NoMemory>
    requires readable { AreReadable connections.old d }
    ensures count { length connections.new ≡ length connections.old }
    ensures others { OnOk result (LeavesOthers connections.old connections.new d) }
    ensures step { IfOk result (λ o. (journal : List Entry) (n : ℕ) (l : Pairing) → MatchesGateway gateway.old l → MatchesConnections connections.old d l.connections → HasLinks l → HaveEncodings l.connections → GatewayStep journal n l rows.Read gateway.new connections.new d o) }
{
    match gateway.gate.upper_link() {
        Some(c) => Ok(read_on(alloc, gateway, connections, d, c)?),
        None => Ok(Outcome::Impossible),
    }
}

/// The device opens a connection to the server.
pub fn dial(
    alloc: Global,
    gateway: &mut Gateway,
    connections: &mut Vec<Connection>,
    d: u32,
) -> Result<Outcome, NoMemory>
    ensures count { OnOk result (length connections.new.items ≡ length connections.old.items + 1) }
    ensures others { OnOk result (LeavesOthers connections.old.items connections.new.items d) }
    ensures step { IfOk result (λ o. (journal : List Entry) (l : Pairing) → MatchesGateway gateway.old l → MatchesConnections connections.old.items d l.connections → GatewayStep journal (length connections.old.items + 1) l rows.Dial gateway.new connections.new.items d o) }
{
    let c = open(alloc, connections, d, Opener::Device)?;
    gateway.gate.device_opened(c);
    Ok(Outcome::Connection { c })
}

/// The device writes what it has to ask on its connection `c`.
fn ask_on(
    alloc: Global,
    gateway: &mut Gateway,
    connections: &mut [Connection],
    d: u32,
    c: u64,
) -> Result<Outcome, NoMemory>
    requires { (gate_of gateway.old.gate).link ≡ Some c }
    ensures count { length connections.new ≡ length connections.old }
    ensures others { OnOk result (LeavesOthers connections.old connections.new d) }
    ensures step { IfOk result (λ o. (l : Pairing) → MatchesGateway gateway.old l → MatchesConnections connections.old d l.connections → IsOpened (l.connections c) → IsGatewayStep l (asks_on l c (gate_next own_time_of l.gate)) gateway.new connections.new d o) }
{
    match gateway.gate.next_ask(c, &own_time())? {
        Sent::Out { message, tag } => {
            let_go(tag);
            let outcome = say_to_server(alloc, connections, d, c, untagged(message))?;
            Ok(outcome)
        }
        Sent::Nothing => Ok(Outcome::Nothing),
        Sent::Stale => unreachable!(),
    }
}

/// The device writes what it has to ask on the connection that it opened.
pub fn ask(
    alloc: Global,
    gateway: &mut Gateway,
    connections: &mut [Connection],
    d: u32,
) -> Result<Outcome, NoMemory>
    ensures count { length connections.new ≡ length connections.old }
    ensures others { OnOk result (LeavesOthers connections.old connections.new d) }
    ensures step { IfOk result (λ o. (journal : List Entry) (n : ℕ) (l : Pairing) → MatchesGateway gateway.old l → MatchesConnections connections.old d l.connections → HasLinks l → GatewayStep journal n l rows.Ask gateway.new connections.new d o) }
{
    match gateway.gate.own_link() {
        Some(c) => Ok(ask_on(alloc, gateway, connections, d, c)?),
        None => Ok(Outcome::Impossible),
    }
}

/// The device takes an answer that came on its connection `c`.
fn get_packet(gateway: &mut Gateway, c: u64, packet: &Packet) -> Result<Outcome, NoMemory>
    requires { (gate_of gateway.old.gate).link ≡ Some c }
    ensures { IfOk result (λ o. (l : Pairing) (q : Said) → MatchesGateway gateway.old l → Carries packet.now q → MatchesGateway gateway.new (after_got l q) × (outcome_of o ≡ outcome_told (Stepped (gate_got l.gate q.message).1))) }
{
    match gateway.gate.read_answer(c, &packet.message)? {
        Step::Taken => {
            apply_list(&mut gateway.applied, &packet.tag)?;
            Ok(Outcome::Taken)
        }
        Step::Unasked => Ok(Outcome::Unasked),
        Step::Stale => unreachable!(),
    }
}

/// The same of a packet that is let go.
fn get_one(gateway: &mut Gateway, c: u64, packet: Packet) -> Result<Outcome, NoMemory>
    requires { (gate_of gateway.old.gate).link ≡ Some c }
    ensures { IfOk result (λ o. (l : Pairing) (q : Said) → MatchesGateway gateway.old l → Carries packet q → MatchesGateway gateway.new (after_got l q) × (outcome_of o ≡ outcome_told (Stepped (gate_got l.gate q.message).1))) }
{
    let outcome = get_packet(gateway, c, &packet);
    let_go(packet);
    outcome
}

/// The device takes the first unread answer on its connection `c`.
fn get_on(
    alloc: Global,
    gateway: &mut Gateway,
    connections: &mut [Connection],
    d: u32,
    c: u64,
) -> Result<Outcome, NoMemory>
    requires linked { (gate_of gateway.old.gate).link ≡ Some c }
    requires readable { AreReadable connections.old d }
    ensures count { length connections.new ≡ length connections.old }
    ensures others { OnOk result (LeavesOthers connections.old connections.new d) }
    ensures step { IfOk result (λ o. (l : Pairing) → MatchesGateway gateway.old l → MatchesConnections connections.old d l.connections → IsOpened (l.connections c) → HaveEncodings l.connections → IsGatewayStep l (gets_front l c (l.connections c) (front (l.connections c).to_device)) gateway.new connections.new d o) }
{
    match take_to_device(alloc, connections, d, c)? {
        Some(packet) => {
            let outcome = get_one(gateway, c, packet)?;
            Ok(outcome)
        }
        None => Ok(Outcome::Impossible),
    }
}

/// The device takes the first unread answer on the connection that it opened.
pub fn get(
    alloc: Global,
    gateway: &mut Gateway,
    connections: &mut [Connection],
    d: u32,
) -> Result<Outcome, NoMemory>
    requires readable { AreReadable connections.old d }
    ensures count { length connections.new ≡ length connections.old }
    ensures others { OnOk result (LeavesOthers connections.old connections.new d) }
    ensures step { IfOk result (λ o. (journal : List Entry) (n : ℕ) (l : Pairing) → MatchesGateway gateway.old l → MatchesConnections connections.old d l.connections → HasLinks l → HaveEncodings l.connections → GatewayStep journal n l rows.Got gateway.new connections.new d o) }
{
    match gateway.gate.own_link() {
        Some(c) => Ok(get_on(alloc, gateway, connections, d, c)?),
        None => Ok(Outcome::Impossible),
    }
}

/// The connection that the device opened ends, as the device sees it.
pub fn hang_up(gateway: &mut Gateway) -> Outcome
    ensures { (journal : List Entry) (n d : ℕ) (xs : List Connected) (l : Pairing) → MatchesGateway gateway.old l → MatchesConnections xs d l.connections → GatewayStep journal n l rows.Hangup gateway.new xs d result }
{
    match gateway.gate.own_link() {
        Some(c) => {
            gateway.gate.device_dropped(c);
            Outcome::Done
        }
        None => Outcome::Impossible,
    }
}

/// The device is asked for a heartbeat.
pub fn beat(gateway: &mut Gateway) -> Outcome
    ensures { (journal : List Entry) (n d : ℕ) (xs : List Connected) (l : Pairing) → MatchesGateway gateway.old l → MatchesConnections xs d l.connections → GatewayStep journal n l rows.DeviceBeat gateway.new xs d result }
{
    match gateway.gate.own_link() {
        Some(_) => {
            gateway.gate.beat();
            Outcome::Done
        }
        None => Outcome::Impossible,
    }
}

/// The device is asked for an order.
pub fn want(gateway: &mut Gateway, ro: &Id) -> Result<Outcome, NoMemory>
    ensures { IfOk result (λ o. (journal : List Entry) (n d : ℕ) (xs : List Connected) (l : Pairing) → MatchesGateway gateway.old l → MatchesConnections xs d l.connections → GatewayStep journal n l (rows.Want ro.now) gateway.new xs d o) }
{
    gateway.gate.want(ro)?;
    Ok(Outcome::Done)
}

/// From now on decks were handed in, and so many are left.
pub fn leave_decks(gateway: &mut Gateway, left: u32) -> Outcome
    ensures { (journal : List Entry) (n d : ℕ) (xs : List Connected) (l : Pairing) → MatchesGateway gateway.old l → MatchesConnections xs d l.connections → GatewayStep journal n l (rows.DecksLeft left) gateway.new xs d result }
{
    gateway.decks = DeckState { handed: true, left };
    Outcome::Done
}

/// The device restarts.
pub fn reboot(alloc: Global, gateway: &mut Gateway) -> Outcome
    ensures { (journal : List Entry) (n d : ℕ) (xs : List Connected) (l : Pairing) → MatchesGateway gateway.old l → MatchesConnections xs d l.connections → GatewayStep journal n l rows.Reboot gateway.new xs d result }
{
    gateway.gate.restart();
    let_go(replace(&mut gateway.applied, OrderTable::new(alloc)));
    Outcome::Done
}

/// An event that the device is part of, and that opens no connection.
fn event_on(
    alloc: Global,
    gateway: &mut Gateway,
    connections: &mut [Connection],
    d: u32,
    event: &PairingEvent,
) -> Result<Outcome, NoMemory>
    requires device { is_of_device_of (pairing_event_of event.now) ≡ true }
    requires opens { opens_one (pairing_event_of event.now) ≡ 0 }
    requires readable { AreReadable connections.old d }
    ensures count { length connections.new ≡ length connections.old }
    ensures others { OnOk result (LeavesOthers connections.old connections.new d) }
    ensures step { IfOk result (λ o. (journal : List Entry) (n : ℕ) (l : Pairing) → MatchesGateway gateway.old l → MatchesConnections connections.old d l.connections → HasLinks l → HaveEncodings l.connections → GatewayStep journal n l (pairing_event_of event.now) gateway.new connections.new d o) }
{
    match event {
        PairingEvent::Accept { c } => Ok(accept(gateway, connections, d, *c)),
        PairingEvent::Leave => Ok(leave(gateway)),
        PairingEvent::Read => Ok(read(alloc, gateway, connections, d)?),
        PairingEvent::Ask => Ok(ask(alloc, gateway, connections, d)?),
        PairingEvent::Got => Ok(get(alloc, gateway, connections, d)?),
        PairingEvent::Hangup => Ok(hang_up(gateway)),
        PairingEvent::DeviceBeat => Ok(beat(gateway)),
        PairingEvent::Want { ro } => Ok(want(gateway, ro)?),
        PairingEvent::DecksLeft { k } => Ok(leave_decks(gateway, *k)),
        PairingEvent::Reboot => Ok(reboot(alloc, gateway)),
        _ => unreachable!(),
    }
}

/// An event that the device is part of.
pub fn device_event(
    alloc: Global,
    gateway: &mut Gateway,
    connections: &mut Vec<Connection>,
    d: u32,
    event: &PairingEvent,
) -> Result<Outcome, NoMemory>
    requires device { is_of_device_of (pairing_event_of event.now) ≡ true }
    requires readable { AreReadable connections.old.items d }
    ensures count { OnOk result (length connections.new.items ≡ length connections.old.items + opens_one (pairing_event_of event.now)) }
    ensures others { OnOk result (LeavesOthers connections.old.items connections.new.items d) }
    ensures step { IfOk result (λ o. (journal : List Entry) (l : Pairing) → MatchesGateway gateway.old l → MatchesConnections connections.old.items d l.connections → HasLinks l → HaveEncodings l.connections → GatewayStep journal (length connections.old.items + 1) l (pairing_event_of event.now) gateway.new connections.new.items d o) }
{
    match event {
        PairingEvent::Dial => Ok(dial(alloc, gateway, connections, d)?),
        _ => Ok(event_on(alloc, gateway, connections, d, event)?),
    }
}
