//! What a gateway is begun with.
ghost use Rattle.std.specs.Prelude.{◌≡◌, IfOk};

use end_settings::GateSettings;
use machine_info::gate_info;
use mos_fields::{Id, NoMemory, pair_ok};
use mos_values::MachInfo;
use port_doors::Peer;
use std::alloc::Global;

/// What a gateway is begun with, beside its objects: its mosID, the server's ncsID, where the server listens, and what the
/// gateway says of itself.
#[derive(Drop)]
pub(crate) struct Begun {
    pub mos: Id,
    pub ncs: Id,
    pub peer: Peer,
    pub info: MachInfo,
}

// Where the server listens.
fn server_of(settings: &GateSettings) -> Result<Peer, NoMemory>
    ensures { IfOk result (λ p. (p.host ≡ settings.now.host) × (p.upper ≡ settings.now.server_upper) × (p.lower ≡ settings.now.server_lower)) }
{
    Ok(Peer {
        host: settings.host.try_clone()?,
        upper: settings.server_upper,
        lower: settings.server_lower,
    })
}

/// The names and places of the settings.
pub(crate) fn prepared(alloc: Global, settings: &GateSettings) -> Result<Begun, NoMemory>
    ensures { IfOk result (λ b. (b.mos ≡ settings.now.mos_id) × (b.ncs ≡ settings.now.ncs_id)) }
{
    let ((mos, ncs), (peer, info)) = pair_ok(
        pair_ok(settings.mos_id.try_clone(), settings.ncs_id.try_clone()),
        pair_ok(server_of(settings), gate_info(alloc, settings)),
    )?;
    Ok(Begun {
        mos,
        ncs,
        peer,
        info,
    })
}
