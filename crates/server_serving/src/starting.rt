//! The server's machine, from its journal.
ghost use Rattle.std.specs.Prelude.{◌≡◌, ◌≤◌, [], IfErr, IfOk};
ghost use Rattle.mos_edits.specs.Entries.{IsAccepted};
ghost use Rattle.rundown_log.specs.Keeping.{AreKept};
ghost use Rattle.mos_machines.specs.Steps.{started};
ghost use Rattle.ncs_core.specs.Starting.{IsStartCause};
ghost use Rattle.ncs_core.specs.State.{devices_of, ncs_of};
ghost use Rattle.port_nodes.specs.ServerNodes.{AreNewSides};
ghost use Rattle.serve_ends.specs.Ends.{IsNotStarted, IsStarted};

use mos_values::MachInfo;
use ncs_core::{Ncs, StartCause, StartFault};
use port_nodes::NcsNode;
use rundown_log::Keeper;
use serve_ends::ServeEnd;
use std::alloc::Global;

// Why the server isn't started.
fn not_started<K: Keeper + Drop>(fault: StartFault<K>) -> ServeEnd<K>
    ensures cause { (keeper : K) → IsStartCause (K.kept keeper) (K.faults keeper) (K.faults fault.keeper) fault.cause → IsStarted K.kept K.faults keeper result }
    ensures not_started { IsNotStarted result }
{
    let StartFault { keeper, cause } = fault;
    match cause {
        StartCause::StoreFault => ServeEnd::StoreFault { keeper },
        StartCause::BadEntry { number } => ServeEnd::BadEntry { number, keeper },
        StartCause::NoMemory => ServeEnd::NoMemory,
    }
}

/// The machine of a server of 1 to 64 devices that says this of itself, after its start with the entries that its keeper
/// loads, each of which is accepted after those before it. No device has objects yet.
///
/// `StoreFault` comes only where the keeper failed and counted that, `BadEntry` exactly at the first entry that isn't
/// accepted after those before it; both give the keeper back. Else the only error is that memory runs out.
pub fn start_node<K: Keeper + Drop>(
    alloc: Global,
    keeper: K,
    devices: u32,
    info: MachInfo,
) -> Result<NcsNode<K>, ServeEnd<K>>
    requires { (1 ≤ devices) × (devices ≤ 64) }
    ensures state { IfOk result (λ n. ncs_of n.ncs ≡ started n.ncs.server.journal n.ncs.server.faults) }
    ensures devices { IfOk result (λ n. devices_of n.ncs ≡ devices) }
    ensures loaded { IfOk result (λ n. AreKept (K.kept keeper) n.ncs.server.journal) }
    ensures accepted { IfOk result (λ n. IsAccepted [] n.ncs.server.journal) }
    ensures objects { IfOk result (λ n. AreNewSides n.ports) }
    ensures info { IfOk result (λ n. n.info ≡ info) }
    ensures fault { IfErr result (λ end. IsStarted K.kept K.faults keeper end) }
    ensures not_started { IfErr result (λ end. IsNotStarted end) }
{
    let ncs = match Ncs::start(alloc, keeper, devices) {
        Ok(ncs) => ncs,
        Err(fault) => return Err(not_started(fault)),
    };
    match NcsNode::new(alloc, ncs, info) {
        Ok(node) => Ok(node),
        Err(_) => Err(ServeEnd::NoMemory),
    }
}
