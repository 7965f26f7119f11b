//! What a server is begun with.
ghost use Rattle.std.specs.Prelude.{◌≡◌, IfOk, length};
ghost use Rattle.std.specs.Arc.{arc_value};
ghost use Rattle.end_settings.specs.Devices.{AreDevices, mos_ids};

use crate::devices::{names, peers};
use end_settings::ServerSettings;
use machine_info::server_info;
use mos_fields::{Id, NoMemory, pair_ok};
use mos_values::MachInfo;
use port_doors::Peer;
use port_jobs::Names;
use std::alloc::Global;
use std::sync::Arc;

/// What a server is begun with, beside its machine.
#[derive(Drop)]
pub(crate) struct Begun {
    pub names: Arc<Names>,
    pub ncs: Id,
    pub peers: Vec<Peer>,
    pub info: MachInfo,
}

/// The names and places of the settings.
pub(crate) fn prepared(alloc: Global, settings: &ServerSettings) -> Result<Begun, NoMemory>
    requires { AreDevices settings.now.devices }
    ensures names { IfOk result (λ b. arc_value b.names ≡ mos_ids settings.now.devices) }
    ensures peers { IfOk result (λ b. length b.peers.items ≡ length settings.now.devices) }
    ensures ncs { IfOk result (λ b. b.ncs ≡ settings.now.ncs_id) }
{
    let ((names, ncs), (peers, info)) = pair_ok(
        pair_ok(names(alloc, &settings.devices), settings.ncs_id.try_clone()),
        pair_ok(
            peers(alloc, &settings.devices),
            server_info(alloc, &settings.ncs_id),
        ),
    )?;
    Ok(Begun {
        names,
        ncs,
        peers,
        info,
    })
}
