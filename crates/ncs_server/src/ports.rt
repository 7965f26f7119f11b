//! The ports of a server.
ghost use Rattle.std.specs.Prelude.{◌≡◌, ◌⊎◌, IfErr, IfOk};
ghost use Rattle.program_ends.specs.Ends.{IsServerRunEnd};
ghost use Rattle.program_ends.specs.declared.program_end.ProgramEnd.TheVariants.{NoMemory, NoPort};

use crate::settings::Given;
use port_events::Side;
use port_tcp::{Common, TcpPort};
use program_ends::{ProgramEnd, Why, port_at};
use std::net::{IpAddr, Net, TcpListener, TcpStream};
use std::sync::Arc;
use std::time::Clock;
use thread_doors::ServerListeners;

// One port more at this address, for connections at this side.
fn next_port<
    R: Net<Listener = TcpListener, Stream = TcpStream> + Clock + AllocGlobal + Eprint + Copy + Drop,
>(
    rt: R,
    address: IpAddr,
    port: u16,
    side: Side,
    common: &Arc<Common>,
    why: &mut Why,
) -> Result<TcpPort<R>, ProgramEnd>
    ensures fault { IfErr result (λ end. (end ≡ NoMemory) ⊎ (end ≡ NoPort port)) }
    ensures run { IfErr result (λ end. IsServerRunEnd end) }
{
    let Ok(common) = Arc::try_clone(common) else {
        return Err(ProgramEnd::NoMemory);
    };
    match port_at(rt, address, port, side, common, why) {
        Ok(port) => Ok(port),
        Err(_) => Err(ProgramEnd::NoPort(port)),
    }
}

/// The three ports: for running orders, for objects, and for editors. No worker is refused so far.
pub(crate) fn ports_of<
    R: Net<Listener = TcpListener, Stream = TcpStream> + Clock + AllocGlobal + Eprint + Copy + Drop,
>(
    rt: R,
    given: &Given,
    common: &Arc<Common>,
    why: &mut Why,
) -> Result<ServerListeners<TcpPort<R>>, ProgramEnd>
    ensures refused { IfOk result (λ l. l.refused ≡ 0) }
    ensures fault { IfErr result (λ end. (end ≡ NoMemory) ⊎ ((end ≡ NoPort (given.now.settings).upper) ⊎ ((end ≡ NoPort (given.now.settings).lower) ⊎ (end ≡ NoPort (given.now.settings).editor)))) }
    ensures run { IfErr result (λ end. IsServerRunEnd end) }
{
    let at = given.listen;
    Ok(ServerListeners {
        upper: next_port(rt, at, given.settings.upper, Side::Upper, common, why)?,
        lower: next_port(rt, at, given.settings.lower, Side::Lower, common, why)?,
        editor: next_port(rt, at, given.settings.editor, Side::Editor, common, why)?,
        refused: 0,
    })
}
