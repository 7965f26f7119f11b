//! A server whose machine a hub takes.
use mos_fields::let_go;
use ncs_core::Ncs;
use port_machines::ServerMachine;
use rundown_log::MemKeeper;
use std::alloc::Global;
use std::test::Fail;

/// A server that keeps its journal in memory.
pub type Server = ServerMachine<MemKeeper>;

/// A server of one device, without orders.
pub fn new_server(alloc: Global) -> Result<Server, Fail> {
    let keeper = MemKeeper::new(alloc, Vec::new(alloc), false);
    match Ncs::start(alloc, keeper, 1) {
        Ok(ncs) => Ok(ServerMachine::new(alloc, ncs)),
        Err(fault) => {
            let_go(fault);
            Err(Fail::from("no server"))
        }
    }
}
