//! The connections of a world, by their numbers.
ghost use Rattle.std.specs.Prelude.{◌≡◌, ◌+◌, ◌≤◌, ◌<◌, ℕ, suc, length, slice_get, MatchOption, IfSome, IfNone, OnOk, OnErr, IfOk, Some, None, true, false, Bool, ◌&&◌, if◌then◌else◌, nat_le, [], ◌∷◌, List};
ghost use Rattle.mos_edits.specs.Texts.{set_number};
ghost use Rattle.mos_machines.specs.Messages.{Packet as Said};
ghost use Rattle.world_scripts.specs.WorldEvents.{direction_of};
ghost use Rattle.world_laws.specs.World.{Connection as Line, Opener as Openers, front, rest, lose as lose_of, new_connection, write_device, write_server};
ghost use Rattle.world_parts.specs.Carrying.{IsReadable};
ghost use Rattle.world_parts.specs.Places.{IsPlace, IsLost, with_written};
ghost use Rattle.world_parts.specs.Matching.{AreReadable, Carries, CarriesEncoded, HaveEncodings, IsOpened, LeavesOthers, MatchesConnections, connection_at, opener_of};

use crate::carrying::{decode_packet, encode_packet};
use crate::connection::{Connection, Opener};
use crate::packet::{EncodedPacket, Packet};
use crate::queue::{take_first, write_last};
use mos_fields::{NoMemory, let_go};
use std::alloc::Global;
use world_scripts::Direction;

/// The place of connection `c` where it is one of device `d`.
fn place_of(connections: &[Connection], d: u32, c: u64) -> Option<usize>
    ensures some { IfSome result (λ i. IsPlace connections.now d c i) }
    ensures none { IfNone result (connection_at connections.now d c ≡ None) }
{
    let i = c.checked_sub(1)? as usize;
    let connection = connections.get(i)?;
    if connection.device == d {
        Some(i)
    } else {
        None
    }
}

/// Opens a connection of device `d`, and tells its number.
pub fn open(
    alloc: Global,
    connections: &mut Vec<Connection>,
    d: u32,
    opener: Opener,
) -> Result<u64, NoMemory>
    ensures number { IfOk result (λ c. c ≡ length connections.old.items + 1) }
    ensures count { OnOk result (length connections.new.items ≡ length connections.old.items + 1) }
    ensures others { OnOk result (LeavesOthers connections.old.items connections.new.items d) }
    ensures own { IfOk result (λ c. (lines : ℕ → Line) → MatchesConnections connections.old.items d lines → MatchesConnections connections.new.items d (set_number lines c (new_connection (opener_of opener) []))) }
{
    connections.push(Connection::new(alloc, d, opener))?;
    Ok(connections.len() as u64)
}

/// Accepts connection `c` of device `d`, where this end opened it and it wasn't accepted before; whether it was so.
pub fn accept(connections: &mut [Connection], d: u32, c: u64, opener: Opener) -> bool
    ensures count { length connections.new ≡ length connections.old }
    ensures others { LeavesOthers connections.old connections.new d }
    ensures done { result ≡ true → (lines : ℕ → Line) → MatchesConnections connections.old d lines → ((lines c).opener ≡ opener_of opener) × ((lines c).accepted ≡ false) × MatchesConnections connections.new d (set_number lines c (record (lines c) { accepted = true })) }
    ensures not { result ≡ false → (connections.new ≡ connections.old) × ((lines : ℕ → Line) → MatchesConnections connections.old d lines → (lines c).opener ≡ opener_of opener → (lines c).accepted ≡ true) }
{
    match place_of(connections, d, c) {
        Some(i) => accept_at(&mut connections[i], opener),
        None => false,
    }
}

fn accept_at(connection: &mut Connection, opener: Opener) -> bool
    ensures done { result ≡ true → (connection.old.opener ≡ opener) × (connection.old.accepted ≡ false) × (connection.new ≡ record connection.old { accepted = true }) }
    ensures not { result ≡ false → (connection.new ≡ connection.old) × (connection.old.opener ≡ opener → connection.old.accepted ≡ true) }
{
    if connection.opener != opener || connection.accepted {
        return false;
    }
    connection.accepted = true;
    true
}

/// Takes the first packet that is unread on its way to device `d` on connection `c`, as its bytes.
fn first_to_device(connections: &mut [Connection], d: u32, c: u64) -> Option<EncodedPacket>
    ensures count { length connections.new ≡ length connections.old }
    ensures others { LeavesOthers connections.old connections.new d }
    ensures none { IfNone result ((connections.new ≡ connections.old) × ((lines : ℕ → Line) → MatchesConnections connections.old d lines → IsOpened (lines c) → front (lines c).to_device ≡ None)) }
    ensures some { IfSome result (λ u. (lines : ℕ → Line) → MatchesConnections connections.old d lines → (q : Said) × (front (lines c).to_device ≡ Some q) × CarriesEncoded d u q × MatchesConnections connections.new d (set_number lines c (record (lines c) { to_device = rest (lines c).to_device }))) }
    ensures readable { IfSome result (λ u. AreReadable connections.old d → IsReadable u) }
{
    match place_of(connections, d, c) {
        Some(i) => take_for_device(&mut connections[i]),
        None => None,
    }
}

/// Takes the first message that is unread on its way to device `d` on connection `c`, and decodes it. What is
/// unread on the connections of the device can be read. The only error is that memory runs out.
pub fn take_to_device(
    alloc: Global,
    connections: &mut [Connection],
    d: u32,
    c: u64,
) -> Result<Option<Packet>, NoMemory>
    requires readable { AreReadable connections.old d }
    ensures count { length connections.new ≡ length connections.old }
    ensures others { LeavesOthers connections.old connections.new d }
    ensures none { IfOk result (λ o. IfNone o ((connections.new ≡ connections.old) × ((lines : ℕ → Line) → MatchesConnections connections.old d lines → IsOpened (lines c) → front (lines c).to_device ≡ None))) }
    ensures some { IfOk result (λ o. IfSome o (λ p. (lines : ℕ → Line) → MatchesConnections connections.old d lines → HaveEncodings lines → (q : Said) × (front (lines c).to_device ≡ Some q) × Carries p q × MatchesConnections connections.new d (set_number lines c (record (lines c) { to_device = rest (lines c).to_device })))) }
{
    match first_to_device(connections, d, c) {
        Some(packet) => Ok(Some(decode_packet(alloc, packet)?)),
        None => Ok(None),
    }
}

fn take_for_device(connection: &mut Connection) -> Option<EncodedPacket>
    ensures none { IfNone result ((connection.new ≡ connection.old) × (connection.old.to_device.items ≡ [])) }
    ensures some { IfSome result (λ p. (connection.new ≡ record connection.old { to_device = connection.new.to_device }) × (connection.old.to_device.items ≡ p ∷ connection.new.to_device.items)) }
{
    take_first(&mut connection.to_device)
}

/// Takes the first packet that is unread on its way to the server on connection `c` of device `d`, as its bytes.
fn first_to_server(connections: &mut [Connection], d: u32, c: u64) -> Option<EncodedPacket>
    ensures count { length connections.new ≡ length connections.old }
    ensures others { LeavesOthers connections.old connections.new d }
    ensures none { IfNone result ((connections.new ≡ connections.old) × ((lines : ℕ → Line) → MatchesConnections connections.old d lines → IsOpened (lines c) → front (lines c).to_server ≡ None)) }
    ensures some { IfSome result (λ u. (lines : ℕ → Line) → MatchesConnections connections.old d lines → (q : Said) × (front (lines c).to_server ≡ Some q) × CarriesEncoded d u q × MatchesConnections connections.new d (set_number lines c (record (lines c) { to_server = rest (lines c).to_server }))) }
    ensures readable { IfSome result (λ u. AreReadable connections.old d → IsReadable u) }
{
    match place_of(connections, d, c) {
        Some(i) => take_for_server(&mut connections[i]),
        None => None,
    }
}

/// Takes the first message that is unread on its way to the server on connection `c` of device `d`, and decodes it. What is
/// unread on the connections of the device can be read. The only error is that memory runs out.
pub fn take_to_server(
    alloc: Global,
    connections: &mut [Connection],
    d: u32,
    c: u64,
) -> Result<Option<Packet>, NoMemory>
    requires readable { AreReadable connections.old d }
    ensures count { length connections.new ≡ length connections.old }
    ensures others { LeavesOthers connections.old connections.new d }
    ensures none { IfOk result (λ o. IfNone o ((connections.new ≡ connections.old) × ((lines : ℕ → Line) → MatchesConnections connections.old d lines → IsOpened (lines c) → front (lines c).to_server ≡ None))) }
    ensures some { IfOk result (λ o. IfSome o (λ p. (lines : ℕ → Line) → MatchesConnections connections.old d lines → HaveEncodings lines → (q : Said) × (front (lines c).to_server ≡ Some q) × Carries p q × MatchesConnections connections.new d (set_number lines c (record (lines c) { to_server = rest (lines c).to_server })))) }
{
    match first_to_server(connections, d, c) {
        Some(packet) => Ok(Some(decode_packet(alloc, packet)?)),
        None => Ok(None),
    }
}

fn take_for_server(connection: &mut Connection) -> Option<EncodedPacket>
    ensures none { IfNone result ((connection.new ≡ connection.old) × (connection.old.to_server.items ≡ [])) }
    ensures some { IfSome result (λ p. (connection.new ≡ record connection.old { to_server = connection.new.to_server }) × (connection.old.to_server.items ≡ p ∷ connection.new.to_server.items)) }
{
    take_first(&mut connection.to_server)
}

/// Writes a message to device `d` on its connection `c`, encoded. It is lost where later ones are.
pub fn write_to_device(
    alloc: Global,
    connections: &mut [Connection],
    d: u32,
    c: u64,
    packet: Packet,
) -> Result<(), NoMemory>
    ensures count { length connections.new ≡ length connections.old }
    ensures others { OnOk result (LeavesOthers connections.old connections.new d) }
    ensures own { OnOk result ((lines : ℕ → Line) (q : Said) → MatchesConnections connections.old d lines → IsOpened (lines c) → Carries packet q → MatchesConnections connections.new d (set_number lines c (write_device q (lines c)))) }
{
    match place_of(connections, d, c) {
        Some(i) => {
            let encoded = encode_packet(alloc, d, packet)?;
            write_for_device(&mut connections[i], encoded)
        }
        None => {
            let_go(packet);
            Ok(())
        }
    }
}

fn write_for_device(connection: &mut Connection, packet: EncodedPacket) -> Result<(), NoMemory>
    ensures { OnOk result ((connection.new ≡ record connection.old { to_device = connection.new.to_device }) × (connection.new.to_device.items ≡ with_written connection.old.lost_device packet connection.old.to_device.items)) }
{
    let lost = connection.lost_device;
    write_last(&mut connection.to_device, lost, packet)
}

/// Writes a message to the server on connection `c` of device `d`, encoded. It is lost where later ones are.
pub fn write_to_server(
    alloc: Global,
    connections: &mut [Connection],
    d: u32,
    c: u64,
    packet: Packet,
) -> Result<(), NoMemory>
    ensures count { length connections.new ≡ length connections.old }
    ensures others { OnOk result (LeavesOthers connections.old connections.new d) }
    ensures own { OnOk result ((lines : ℕ → Line) (q : Said) → MatchesConnections connections.old d lines → IsOpened (lines c) → Carries packet q → MatchesConnections connections.new d (set_number lines c (write_server q (lines c)))) }
{
    match place_of(connections, d, c) {
        Some(i) => {
            let encoded = encode_packet(alloc, d, packet)?;
            write_for_server(&mut connections[i], encoded)
        }
        None => {
            let_go(packet);
            Ok(())
        }
    }
}

fn write_for_server(connection: &mut Connection, packet: EncodedPacket) -> Result<(), NoMemory>
    ensures { OnOk result ((connection.new ≡ record connection.old { to_server = connection.new.to_server }) × (connection.new.to_server.items ≡ with_written connection.old.lost_server packet connection.old.to_server.items)) }
{
    let lost = connection.lost_server;
    write_last(&mut connection.to_server, lost, packet)
}

/// A direction of connection `c` keeps its first `k` unread messages; the rest and all later ones are lost. Whether there is
/// such a connection.
pub fn lose(connections: &mut [Connection], c: u64, way: Direction, k: u64) -> bool
    ensures count { length connections.new ≡ length connections.old }
    ensures there { result ≡ (nat_le 1 c && nat_le c (length connections.old)) }
    ensures lost { result ≡ true → (d : ℕ) (lines : ℕ → Line) → MatchesConnections connections.old d lines → MatchesConnections connections.new d (set_number lines c (lose_of (direction_of way) k (lines c))) }
    ensures same { result ≡ false → connections.new ≡ connections.old }
{
    match c.checked_sub(1) {
        Some(i) if (i as usize) < connections.len() => {
            lose_on(&mut connections[i as usize], way, k);
            true
        }
        _ => false,
    }
}

fn lose_on(connection: &mut Connection, way: Direction, k: u64)
    ensures { IsLost connection.old (direction_of way) k connection.new }
{
    match way {
        Direction::ToServer => {
            connection.to_server.truncate(k as usize);
            connection.lost_server = true;
        }
        Direction::ToDevice => {
            connection.to_device.truncate(k as usize);
            connection.lost_device = true;
        }
    }
}
