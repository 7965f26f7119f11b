//! Whom the workers that dial call.
ghost use Rattle.std.specs.Prelude.{◌≡◌, IfOk};
ghost use Rattle.port_doors.specs.Calls.{lower_call as lower_call_of, upper_call as upper_call_of};

use mos_fields::{Id, NoMemory, Text, pair_ok, triple_ok};
use port_events::Side;
use port_links::Place;
use port_session::Port;

/// Where a peer listens.
#[derive(Drop)]
pub struct Peer {
    /// the machine, by its name or address
    pub host: Text,
    /// its TCP port for running orders
    pub upper: u16,
    /// its TCP port for objects
    pub lower: u16,
}

/// At which port a worker drives the connections that it opens, and where it opens them.
#[derive(Drop)]
pub struct Call {
    pub port: Port,
    pub place: Place,
}

/// The two calls of a peer.
#[derive(Drop)]
pub struct Calls {
    pub upper: Call,
    pub lower: Call,
}

// The call at the upper port.
fn upper_call(device: Option<u32>, mos: &Id, ncs: &Id, peer: &Peer) -> Result<Call, NoMemory>
    ensures { IfOk result (λ c. c ≡ upper_call_of device mos.now ncs.now peer.now) }
{
    let (mos, ncs, host) = triple_ok(mos.try_clone(), ncs.try_clone(), peer.host.try_clone())?;
    Ok(Call {
        port: Port {
            side: Side::Upper,
            device,
            link: 0,
            mos,
            ncs,
        },
        place: Place {
            host,
            port: peer.upper,
        },
    })
}

// The call at the lower port.
fn lower_call(device: Option<u32>, mos: &Id, ncs: &Id, peer: &Peer) -> Result<Call, NoMemory>
    ensures { IfOk result (λ c. c ≡ lower_call_of device mos.now ncs.now peer.now) }
{
    let (mos, ncs, host) = triple_ok(mos.try_clone(), ncs.try_clone(), peer.host.try_clone())?;
    Ok(Call {
        port: Port {
            side: Side::Lower,
            device,
            link: 0,
            mos,
            ncs,
        },
        place: Place {
            host,
            port: peer.lower,
        },
    })
}

/// Both calls of a peer, with the names of the two ends.
pub(crate) fn peer_calls(
    device: Option<u32>,
    mos: &Id,
    ncs: &Id,
    peer: &Peer,
) -> Result<Calls, NoMemory>
    ensures { IfOk result (λ c. c ≡ record { upper = upper_call_of device mos.now ncs.now peer.now; lower = lower_call_of device mos.now ncs.now peer.now }) }
{
    let (upper, lower) = pair_ok(
        upper_call(device, mos, ncs, peer),
        lower_call(device, mos, ncs, peer),
    )?;
    Ok(Calls { upper, lower })
}
