//! The state lines of a world.
ghost use Rattle.std.specs.Prelude.{◌≡◌, ◌++◌, ◌<◌, List, ℕ, OnOk, Some};
ghost use Rattle.ncs_core.specs.State.{devices_of};
ghost use Rattle.world_stage.specs.Stages.{ShowsWorld};
ghost use Rattle.world_stage.specs.Worlds.{ncs_shown};
ghost use Rattle.script_plays.specs.Played.{HasState};
ghost use Rattle.script_plays.specs.States.{AreDevicesShown, IsDeviceShown};

use mos_fields::NoMemory;
use ncs_core::Ncs;
use rundown_log::MemKeeper;
use state_listing::{push_device, push_orders};
use std::alloc::Global;
use world_stage::World;

/// Appends the lines of a device, which counts from 0.
fn push_shown_device(
    alloc: Global,
    out: &mut Vec<u8>,
    world: &World,
    ncs: &Ncs<MemKeeper>,
    d: u32,
) -> Result<(), NoMemory>
    requires server { ncs_shown world.now ≡ Some ncs.now }
    requires within { d < devices_of ncs.now }
    ensures { OnOk result (IsDeviceShown world.now d out.old.items out.new.items) }
{
    match world.gate(d) {
        Some(gate) => match world.applied(d) {
            Some(applied) => push_device(alloc, out, ncs, d, gate, applied),
            None => Err(NoMemory),
        },
        None => Err(NoMemory),
    }
}

/// Appends the lines of all devices.
fn push_shown_devices(
    alloc: Global,
    out: &mut Vec<u8>,
    world: &World,
    ncs: &Ncs<MemKeeper>,
) -> Result<(), NoMemory>
    requires { ncs_shown world.now ≡ Some ncs.now }
    ensures { OnOk result (AreDevicesShown world.now (devices_of ncs.now) out.old.items out.new.items) }
{
    'devices: for d in 0..ncs.devices() {
        push_shown_device(alloc, out, world, ncs, d)?;
    }
    Ok(())
}

/// Appends the state lines of a world. The only error is that memory runs out, or ran out for the world; some of the lines may
/// be there then.
pub fn push_state(alloc: Global, out: &mut Vec<u8>, world: &World) -> Result<(), NoMemory>
    ensures state { OnOk result ((state : List ℕ) × (out.new.items ≡ out.old.items ++ state) × HasState (Some world.now) state) }
    ensures world { OnOk result (ShowsWorld (Some world.now)) }
{
    match world.ncs() {
        Some(ncs) => {
            push_orders(alloc, out, ncs)?;
            push_shown_devices(alloc, out, world, ncs)
        }
        None => Err(NoMemory),
    }
}
