//! The parts of a world, and what its events make of them.
ghost use Rattle.std.specs.Prelude.{◌≡◌, ◌+◌, ◌<◌, ◌≤◌, ◌&&◌, length, nat_le, OnOk, IfOk, IfNone, IfSome, false};
ghost use Rattle.mos_edits.specs.Entries.{entry_of};
ghost use Rattle.ncs_core.specs.State.{devices_of};
ghost use Rattle.world_scripts.specs.WorldEvents.{HasSoundEdit, direction_of, event_of, pairing_event_of};
ghost use Rattle.world_scripts.specs.Outcomes.{outcome_of};
ghost use Rattle.world_laws.specs.Outcomes.{outcome as outcome_told};
ghost use Rattle.world_laws.specs.World.{World, WorldEvent as events, opening, world_step};
ghost use Rattle.world_parts.specs.Matching.{AreReadable};
ghost use Rattle.world_stage.specs.Matching.{IsSized, Matches, MatchesOne};
ghost use Rattle.world_stage.specs.Playing.{AreNew, IsNewServer, IsRestarted, IsStartedAgain, is_restart};
ghost use Rattle.world_stage.specs.Steps.{PairingStep, is_of_device as is_of_device_of};

use crate::commanding::command;
use crate::device_events::device_event;
use crate::limits::{edit_keeps_limits, event_keeps_limits};
use crate::server_events::server_event;
use mos_edits::Edit;
use mos_fields::{NoMemory, let_go};
use ncs_core::Ncs;
use rundown_log::MemKeeper;
use std::alloc::Global;
use world_parts::{Connection, Gateway, lose};
use world_scripts::{Direction, Outcome, PairingEvent, WorldEvent};

/// The server, the gateways of its devices, and all connections that were opened. Device `d` has the gateway at `d - 1`, and
/// connection `c` stands at `c - 1`.
#[derive(Drop)]
pub struct Play {
    pub ncs: Ncs<MemKeeper>,
    pub gateways: Vec<Gateway>,
    pub connections: Vec<Connection>,
}

/// Gateways that weren't connected yet.
fn new_gateways(alloc: Global, devices: u32) -> Result<Vec<Gateway>, NoMemory>
    ensures length { IfOk result (λ v. length v.items ≡ devices) }
    ensures new { IfOk result (λ v. AreNew v.items) }
{
    let mut gateways = Vec::new(alloc);
    'gateways: while gateways.len() < devices as usize {
        gateways.push(Gateway::new(alloc))?;
    }
    Ok(gateways)
}

/// A server that was just started.
fn new_server(alloc: Global, devices: u32) -> Result<Ncs<MemKeeper>, NoMemory>
    requires least { 1 ≤ devices }
    requires most { devices ≤ 64 }
    ensures { IfOk result (λ n. IsNewServer n devices) }
{
    let keeper = MemKeeper::new(alloc, Vec::new(alloc), false);
    match Ncs::start(alloc, keeper, devices) {
        Ok(ncs) => Ok(ncs),
        Err(fault) => {
            let_go(fault);
            Err(NoMemory)
        }
    }
}

/// The server after a restart, where the entry whose append failed stands or doesn't.
fn restarted(ncs: Ncs<MemKeeper>, kept: bool) -> Result<Ncs<MemKeeper>, NoMemory>
    ensures { IfOk result (λ n. IsRestarted ncs n kept) }
{
    let mut ncs = ncs;
    ncs.settle(kept);
    start_again(ncs)
}

/// The server after a restart.
fn start_again(ncs: Ncs<MemKeeper>) -> Result<Ncs<MemKeeper>, NoMemory>
    ensures { IfOk result (λ n. IsStartedAgain ncs n) }
{
    match ncs.restart() {
        Ok(ncs) => Ok(ncs),
        Err(fault) => {
            let_go(fault);
            Err(NoMemory)
        }
    }
}

/// Whether the device is part of an event; else the server is.
fn is_of_device(event: &PairingEvent) -> bool
    ensures { result ≡ is_of_device_of (pairing_event_of event.now) }
{
    match event {
        PairingEvent::OpenTo => false,
        PairingEvent::Cut => false,
        PairingEvent::Send => false,
        PairingEvent::Back => false,
        PairingEvent::Admit { c: _ } => false,
        PairingEvent::Hear => false,
        PairingEvent::Miss => false,
        PairingEvent::Beat => false,
        _ => true,
    }
}

/// The place of device `d` among so many, which are numbered from 1.
fn place_of(devices: u32, d: u32) -> Option<u32>
    ensures some { IfSome result (λ p. (p + 1 ≡ d) × (p < devices)) }
    ensures none { IfNone result ((nat_le 1 d && nat_le d devices) ≡ false) }
{
    if d < 1 || d > devices {
        None
    } else {
        Some(d - 1)
    }
}

impl Play {
    /// The opening world of so many devices.
    pub fn new(alloc: Global, devices: u32) -> Result<Self, NoMemory>
        requires least { 1 ≤ devices }
        requires most { devices ≤ 64 }
        ensures { IfOk result (λ t. Matches t (opening devices)) }
    {
        let gateways = new_gateways(alloc, devices)?;
        match new_server(alloc, devices) {
            Ok(ncs) => Ok(Play {
                ncs,
                gateways,
                connections: Vec::new(alloc),
            }),
            Err(_) => {
                let_go(gateways);
                Err(NoMemory)
            }
        }
    }

    /// An event at a device, from 0.
    fn pairing_event(
        &mut self,
        alloc: Global,
        d: u32,
        event: &PairingEvent,
    ) -> Result<Outcome, NoMemory>
        requires within { d < devices_of self.old.ncs }
        requires few { d < 64 }
        requires sized { IsSized self.old }
        requires readable { AreReadable self.old.connections.items (d + 1) }
        ensures { IfOk result (λ o. PairingStep self.old self.new d (pairing_event_of event.now) o) }
    {
        if is_of_device(event) {
            let gateway = &mut self.gateways[d as usize];
            Ok(device_event(alloc, gateway, &mut self.connections, d + 1, event)?)
        } else {
            Ok(server_event(alloc, &mut self.ncs, &mut self.connections, d, event)?)
        }
    }

    /// An event at device `d`, where there is one.
    fn at_device(
        &mut self,
        alloc: Global,
        d: u32,
        event: &PairingEvent,
    ) -> Result<Outcome, NoMemory>
        requires { MatchesOne self.old }
        ensures { IfOk result (λ o. (w : World) → Matches self.old w → Matches self.new (world_step w (events.AtDevice d (pairing_event_of event.now))).0 × (outcome_of o ≡ outcome_told w (events.AtDevice d (pairing_event_of event.now)))) }
    {
        event_keeps_limits(event);
        match place_of(self.ncs.devices(), d) {
            Some(place) => Ok(self.pairing_event(alloc, place, event)?),
            None => Ok(Outcome::Impossible),
        }
    }

    /// An editor's command.
    fn command(&mut self, alloc: Global, edit: &Edit) -> Result<Outcome, NoMemory>
        requires { HasSoundEdit (events.Command (entry_of edit.now)) }
        ensures { IfOk result (λ o. (w : World) → Matches self.old w → Matches self.new (world_step w (events.Command (entry_of edit.now))).0 × (outcome_of o ≡ outcome_told w (events.Command (entry_of edit.now)))) }
    {
        edit_keeps_limits(edit);
        Ok(command(alloc, &mut self.ncs, edit)?)
    }

    /// A loss on connection `c`.
    fn lose(&mut self, c: u64, way: Direction, k: u64) -> Outcome
        ensures { (w : World) → Matches self.old w → Matches self.new (world_step w (events.Lose c (direction_of way) k)).0 × (outcome_of result ≡ outcome_told w (events.Lose c (direction_of way) k)) }
    {
        if lose(&mut self.connections, c, way, k) {
            Outcome::Done
        } else {
            Outcome::Impossible
        }
    }

    /// The next append to the journal fails.
    fn fail_next(&mut self) -> Outcome
        ensures { (w : World) → Matches self.old w → Matches self.new (world_step w events.FailNext).0 × (outcome_of result ≡ outcome_told w events.FailNext) }
    {
        self.ncs.fail_next_append();
        Outcome::Done
    }

    /// The server restarts.
    fn restart(self, kept: bool) -> Result<Self, NoMemory>
        ensures { IfOk result (λ u. (w : World) → Matches self w → Matches u (world_step w (events.Restart kept)).0) }
    {
        let Play {
            ncs,
            gateways,
            connections,
        } = self;
        match restarted(ncs, kept) {
            Ok(ncs) => Ok(Play {
                ncs,
                gateways,
                connections,
            }),
            Err(_) => {
                let_go(gateways);
                let_go(connections);
                Err(NoMemory)
            }
        }
    }

    /// An event that isn't a restart.
    fn event(&mut self, alloc: Global, e: &WorldEvent) -> Result<Outcome, NoMemory>
        requires sound { HasSoundEdit (event_of e.now) }
        requires world { MatchesOne self.old }
        requires runs { is_restart (event_of e.now) ≡ false }
        ensures { IfOk result (λ o. (w : World) → Matches self.old w → Matches self.new (world_step w (event_of e.now)).0 × (outcome_of o ≡ outcome_told w (event_of e.now))) }
    {
        match e {
            WorldEvent::Command(edit) => Ok(self.command(alloc, edit)?),
            WorldEvent::AtDevice { d, event } => Ok(self.at_device(alloc, *d, event)?),
            WorldEvent::Lose { c, way, k } => Ok(self.lose(*c, *way, *k)),
            WorldEvent::FailNext => Ok(self.fail_next()),
            WorldEvent::Restart { kept: _ } => unreachable!(),
        }
    }

    /// The parts after an event, and what came of it.
    pub fn step(self, alloc: Global, e: &WorldEvent) -> Result<(Self, Outcome), NoMemory>
        requires sound { HasSoundEdit (event_of e.now) }
        requires world { MatchesOne self }
        ensures world { IfOk result (λ r. MatchesOne r.0) }
        ensures step { IfOk result (λ r. (w : World) → Matches self w → Matches r.0 (world_step w (event_of e.now)).0 × (outcome_of r.1 ≡ outcome_told w (event_of e.now))) }
    {
        match e {
            WorldEvent::Restart { kept } => match self.restart(*kept) {
                Ok(play) => Ok((play, Outcome::Done)),
                Err(_) => Err(NoMemory),
            },
            _ => {
                let mut play = self;
                match play.event(alloc, e) {
                    Ok(outcome) => Ok((play, outcome)),
                    Err(_) => {
                        let_go(play);
                        Err(NoMemory)
                    }
                }
            }
        }
    }
}
