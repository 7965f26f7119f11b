//! A world in memory.
ghost use Rattle.std.specs.Prelude.{◌≡◌, ◌≤◌, None, OnErr, IfOk, IsErr, IsSome};
ghost use Rattle.std.specs.Option.{option_copied};
ghost use Rattle.world_scripts.specs.WorldEvents.{HasSoundEdit, event_of, events_of};
ghost use Rattle.world_scripts.specs.Outcomes.{outcome_of};
ghost use Rattle.world_laws.specs.Outcomes.{outcome as outcome_told};
ghost use Rattle.world_laws.specs.Safe.{IsSafe};
ghost use Rattle.world_laws.specs.World.{World as Defined, WorldEvent as events, opening, run as run_of, world_step};
ghost use Rattle.world_stage.specs.Matching.{Shows};
ghost use Rattle.world_stage.specs.Worlds.{applied_shown, devices_shown, gate_shown, ncs_shown, HaveSoundEdits};

use crate::play::Play;
use gateway_core::Gate;
use mos_fields::{NoMemory, let_go};
use ncs_core::Ncs;
use order_table::OrderTable;
use rundown_log::MemKeeper;
use std::alloc::Global;
use std::marker::Model;
use std::mem::replace;
use world_laws::prefix_consistency;
use world_scripts::{Outcome, WorldEvent, WorldEvents};

/// A world of one server and its devices, which the shipped machines play: an `Ncs` over a keeper in memory, a `Gate` for each
/// device, and the connections between them with the messages that are on their way.
///
/// Where memory runs out, nothing is left of the world, and each later step wants memory too.
#[derive(Drop)]
pub struct World {
    alloc: Global,
    play: Option<Play>,
}

impl Model for World {
    ghost use Rattle.std.specs.Prelude.{Option};
    ghost use Rattle.world_stage.specs.declared.play.Play.{Play};
    ghost use Rattle.world_stage.specs.Worlds.{ShowsOne};

    ghost Value = { Option Play };

    ghost view = { λ w. w.play };

    ghost invariant = { λ w. ShowsOne w.play };
}

impl World {
    /// The opening world of 1 to 64 devices: no order, no connection. The only error is that memory runs out.
    pub fn new(alloc: Global, devices: u32) -> Result<Self, NoMemory>
        requires least { 1 ≤ devices }
        requires most { devices ≤ 64 }
        ensures { IfOk result (λ x. Shows x (opening devices)) }
    {
        Ok(World {
            alloc,
            play: Some(Play::new(alloc, devices)?),
        })
    }

    /// Plays an event, and says what came of it. An edit that is commanded has an encoding.
    ///
    /// The world is then the one that the world's definition has after the event. An event that isn't possible changes
    /// nothing. The only error is that memory runs out; from then on each step answers so.
    pub fn step(&mut self, e: &WorldEvent) -> Result<Outcome, NoMemory>
        requires { HasSoundEdit (event_of e.now) }
        ensures step { IfOk result (λ o. (w : Defined) → Shows self.old w → Shows self.new (world_step w (event_of e.now)).0 × (outcome_of o ≡ outcome_told w (event_of e.now))) }
        ensures spent { OnErr result (self.new ≡ None) }
        ensures stays { self.old ≡ None → IsErr result }
    {
        match self.play.take() {
            Some(play) => {
                let (play, outcome) = play.step(self.alloc, e)?;
                let_go(replace(&mut self.play, Some(play)));
                Ok(outcome)
            }
            None => Err(NoMemory),
        }
    }

    /// Plays events on the opening world of 1 to 64 devices. Each edit that is commanded has an encoding.
    ///
    /// The world is the one that the run of the world's definition ends in, and that run is safe: what a gateway holds of an
    /// order is at each moment the server's order after a prefix of its accepted edits. The only error is that memory runs
    /// out.
    pub fn run(alloc: Global, devices: u32, events: &WorldEvents) -> Result<Self, NoMemory>
        requires least { 1 ≤ devices }
        requires most { devices ≤ 64 }
        requires sound { HaveSoundEdits (events_of events.now) }
        ensures run { IfOk result (λ x. Shows x (run_of (opening devices) (events_of events.now))) }
        ensures safe { IsSafe (opening devices) (events_of events.now) }
    {
        prefix_consistency();
        let mut world = World::new(alloc, devices)?;
        'events: for e in events.as_slice() {
            let_go(world.step(e)?);
        }
        Ok(world)
    }

    /// The server; `None` where memory ran out. Where there is one, all is as in a world that a run ends in. It takes no memory.
    pub fn ncs(&self) -> Option<&Ncs<MemKeeper>>
        ensures server { option_copied result ≡ ncs_shown self.now }
        ensures world { IsSome result → (w : Defined) × Shows self.now w }
    {
        match &self.play {
            Some(play) => Some(&play.ncs),
            None => None,
        }
    }

    /// How many devices there are; 0 where memory ran out. It takes no memory.
    pub fn devices(&self) -> u32
        ensures { result ≡ devices_shown self.now }
    {
        match &self.play {
            Some(play) => play.ncs.devices(),
            None => 0,
        }
    }

    /// The gateway of a device, from 0; `None` where there is none, or memory ran out. It takes no memory.
    pub fn gate(&self, d: u32) -> Option<&Gate>
        ensures { option_copied result ≡ gate_shown self.now d }
    {
        match &self.play {
            Some(play) => match play.gateways.get(d as usize) {
                Some(gateway) => Some(&gateway.gate),
                None => None,
            },
            None => None,
        }
    }

    /// How many entries of each order a device has applied, from 0; none where its table has no row; `None` where there is
    /// no such device, or memory ran out. It takes no memory.
    pub fn applied(&self, d: u32) -> Option<&OrderTable<u64>>
        ensures { option_copied result ≡ applied_shown self.now d }
    {
        match &self.play {
            Some(play) => match play.gateways.get(d as usize) {
                Some(gateway) => Some(&gateway.applied),
                None => None,
            },
            None => None,
        }
    }
}
