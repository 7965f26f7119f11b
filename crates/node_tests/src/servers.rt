//! Servers with their journals in memory.
use crate::gateways::info;
use crate::turns::{Place, event_of, said};
use mos_fields::{NoMemory, let_go};
use ncs_core::{Ncs, StartFault};
use port_events::{PortAnswer, PortEvent};
use port_nodes::NcsNode;
use rundown_log::{Keeper, MemKeeper};
use std::alloc::Global;
use std::mem::replace;
use std::test::Fail;

/// A server that keeps its journal in memory.
pub type Server = NcsNode<MemKeeper>;

// The node round a server that was started.
fn node_of(
    alloc: Global,
    start: Result<Ncs<MemKeeper>, StartFault<MemKeeper>>,
) -> Result<Server, NoMemory> {
    match start {
        Ok(ncs) => NcsNode::new(alloc, ncs, info(alloc)),
        Err(fault) => {
            let_go(fault);
            Err(NoMemory)
        }
    }
}

/// A server of two devices without orders.
pub fn new_server(alloc: Global) -> Result<Server, NoMemory> {
    let keeper = MemKeeper::new(alloc, Vec::new(alloc), false);
    node_of(alloc, Ncs::start(alloc, keeper, 2))
}

fn take<K: Keeper>(server: &mut NcsNode<K>, event: &PortEvent) -> Result<PortAnswer, NoMemory> {
    server.take(event)
}

/// What the server answers to what happens at a place.
pub fn server_says(
    alloc: Global,
    server: &mut Server,
    place: Place,
    verb: &str,
    text: &[u8],
) -> Result<Vec<u8>, Fail> {
    let event = event_of(alloc, place, verb, text)?;
    let answer = take(server, &event);
    let_go(event);
    Ok(said(alloc, answer?)?)
}

// The server after a new start with what its keeper kept.
fn started_anew(alloc: Global, server: Server) -> Result<Server, NoMemory> {
    node_of(alloc, server.into_ncs().restart())
}

/// Puts the server after a new start in its place.
pub fn restart_server(alloc: Global, server: &mut Server) -> Result<(), NoMemory> {
    let former = replace(server, new_server(alloc)?);
    let_go(replace(server, started_anew(alloc, former)?));
    Ok(())
}
