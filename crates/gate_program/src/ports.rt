//! The ports of a gateway.
ghost use Rattle.std.specs.Prelude.{◌≡◌, ◌⊎◌, IfErr, IfOk};
ghost use Rattle.program_ends.specs.Ends.{IsGateRunEnd};
ghost use Rattle.program_ends.specs.declared.program_end.ProgramEnd.TheVariants.{NoMemory, NoPort};

use crate::settings::Given;
use port_events::Side;
use port_tcp::{Common, TcpPort};
use program_ends::{ProgramEnd, Why, port_at};
use std::net::{IpAddr, Net, TcpListener, TcpStream};
use std::sync::Arc;
use std::time::Clock;
use thread_doors::GateListeners;

// One port more at this address, for connections at this side.
fn next_port<
    R: Net<Listener = TcpListener, Stream = TcpStream> + Clock + AllocGlobal + Eprint + Copy + Drop,
>(
    rt: R,
    address: IpAddr,
    port: u16,
    side: Side,
    common: &Arc<Common>,
    why: &mut Why,
) -> Result<TcpPort<R>, ProgramEnd>
    ensures fault { IfErr result (λ end. (end ≡ NoMemory) ⊎ (end ≡ NoPort port)) }
    ensures run { IfErr result (λ end. IsGateRunEnd end) }
{
    let Ok(common) = Arc::try_clone(common) else {
        return Err(ProgramEnd::NoMemory);
    };
    match port_at(rt, address, port, side, common, why) {
        Ok(port) => Ok(port),
        Err(_) => Err(ProgramEnd::NoPort(port)),
    }
}

/// The two ports: for running orders, and for objects. No worker is refused so far.
pub(crate) fn ports_of<
    R: Net<Listener = TcpListener, Stream = TcpStream> + Clock + AllocGlobal + Eprint + Copy + Drop,
>(
    rt: R,
    given: &Given,
    common: &Arc<Common>,
    why: &mut Why,
) -> Result<GateListeners<TcpPort<R>>, ProgramEnd>
    ensures refused { IfOk result (λ l. l.refused ≡ 0) }
    ensures fault { IfErr result (λ end. (end ≡ NoMemory) ⊎ ((end ≡ NoPort (given.now.settings).upper) ⊎ (end ≡ NoPort (given.now.settings).lower))) }
    ensures run { IfErr result (λ end. IsGateRunEnd end) }
{
    let at = given.listen;
    Ok(GateListeners {
        upper: next_port(rt, at, given.settings.upper, Side::Upper, common, why)?,
        lower: next_port(rt, at, given.settings.lower, Side::Lower, common, why)?,
        refused: 0,
    })
}
