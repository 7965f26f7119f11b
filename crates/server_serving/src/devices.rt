//! The devices of the settings.
ghost use Rattle.std.specs.Prelude.{◌≡◌, IfOk, length};
ghost use Rattle.std.specs.Arc.{arc_value};
ghost use Rattle.end_settings.specs.Devices.{AreDevices, mos_ids};

use end_settings::{DeviceSettings, Devices};
use mos_fields::{Ids, NoMemory, let_go};
use port_doors::Peer;
use port_jobs::Names;
use std::alloc::Global;
use std::sync::Arc;

// Where a device listens.
fn peer(device: &DeviceSettings) -> Result<Peer, NoMemory>
    ensures host { IfOk result (λ p. p.host ≡ device.now.host) }
    ensures ports { IfOk result (λ p. (p.upper ≡ device.now.upper) × (p.lower ≡ device.now.lower)) }
{
    Ok(Peer {
        host: device.host.try_clone()?,
        upper: device.upper,
        lower: device.lower,
    })
}

/// Where the devices listen, in their order.
pub fn peers(alloc: Global, devices: &Devices) -> Result<Vec<Peer>, NoMemory>
    ensures { IfOk result (λ peers. length peers.items ≡ length devices.now) }
{
    let mut peers = Vec::new(alloc);
    'peers: for i in 0..devices.len() {
        match devices.get(i) {
            Some(device) => peers.push(peer(device)?)?,
            None => unreachable!(),
        }
    }
    Ok(peers)
}

// The mosIDs of the devices, in their order.
fn ids(alloc: Global, devices: &Devices) -> Result<Ids, NoMemory>
    ensures { IfOk result (λ ids. ids ≡ mos_ids devices.now) }
{
    let mut ids = Ids::new(alloc);
    'ids: for i in 0..devices.len() {
        match devices.get(i) {
            Some(device) => ids.push(device.mos_id.try_clone()?)?,
            None => unreachable!(),
        }
    }
    Ok(ids)
}

/// The names of the devices, to be shared.
pub fn names(alloc: Global, devices: &Devices) -> Result<Arc<Names>, NoMemory>
    requires { AreDevices devices.now }
    ensures { IfOk result (λ names. arc_value names ≡ mos_ids devices.now) }
{
    let names = Names::new(ids(alloc, devices)?);
    match Arc::new(alloc, names) {
        Ok(names) => Ok(names),
        Err(_) => Err(NoMemory),
    }
}
