//! Writing a packet, and telling of it.
ghost use Rattle.std.specs.Prelude.{◌≡◌, ℕ, length, OnOk, IfOk};
ghost use Rattle.mos_machines.specs.Messages.{Packet as Said};
ghost use Rattle.world_laws.specs.World.{Connection as Line, write_device, write_server};
ghost use Rattle.world_parts.specs.Matching.{Carries, IsOpened, LeavesOthers, MatchesConnections};
ghost use Rattle.world_stage.specs.Saying.{IsSaid};

use mos_fields::{NoMemory, let_go};
use std::alloc::Global;
use world_parts::{Connection, Packet, told, write_to_device, write_to_server};
use world_scripts::Outcome;

/// Writes a packet to the server on connection `c` of device `d`, and tells of it.
pub fn say_to_server(
    alloc: Global,
    connections: &mut [Connection],
    d: u32,
    c: u64,
    packet: Packet,
) -> Result<Outcome, NoMemory>
    ensures count { length connections.new ≡ length connections.old }
    ensures others { OnOk result (LeavesOthers connections.old connections.new d) }
    ensures said { IfOk result (λ o. (lines : ℕ → Line) (q : Said) → MatchesConnections connections.old d lines → IsOpened (lines c) → Carries packet q → IsSaid connections.new d c lines (write_server q (lines c)) q o) }
{
    match told(&packet) {
        Ok(outcome) => match write_to_server(alloc, connections, d, c, packet) {
            Ok(()) => Ok(outcome),
            Err(_) => {
                let_go(outcome);
                Err(NoMemory)
            }
        },
        Err(_) => {
            let_go(packet);
            Err(NoMemory)
        }
    }
}

/// Writes a packet to device `d` on its connection `c`, and tells of it.
pub fn say_to_device(
    alloc: Global,
    connections: &mut [Connection],
    d: u32,
    c: u64,
    packet: Packet,
) -> Result<Outcome, NoMemory>
    ensures count { length connections.new ≡ length connections.old }
    ensures others { OnOk result (LeavesOthers connections.old connections.new d) }
    ensures said { IfOk result (λ o. (lines : ℕ → Line) (q : Said) → MatchesConnections connections.old d lines → IsOpened (lines c) → Carries packet q → IsSaid connections.new d c lines (write_device q (lines c)) q o) }
{
    match told(&packet) {
        Ok(outcome) => match write_to_device(alloc, connections, d, c, packet) {
            Ok(()) => Ok(outcome),
            Err(_) => {
                let_go(outcome);
                Err(NoMemory)
            }
        },
        Err(_) => {
            let_go(packet);
            Err(NoMemory)
        }
    }
}
