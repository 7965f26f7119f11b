//! The lower ports of the server.
ghost use Rattle.std.specs.Prelude.{◌≡◌, ◌<◌, length, get_or, slice_set, IfOk, OnOk, OnErr};
ghost use Rattle.lower_port.specs.Servers.{server_lower};
ghost use Rattle.port_nodes.specs.ServerNodes.{AreNewSides, new_side};

use lower_port::ServerPort;
use mos_fields::NoMemory;
use mos_values::MachInfo;
use object_table::ObjectTable;
use port_events::{PortAnswer, PortEvent};
use std::alloc::Global;

// A device without objects.
fn new_port(alloc: Global) -> ServerPort
    ensures { result ≡ new_side }
{
    ServerPort::new(ObjectTable::new(alloc))
}

// Devices without objects.
pub fn new_ports(alloc: Global, devices: u32) -> Result<Vec<ServerPort>, NoMemory>
    ensures length { IfOk result (λ ports. length ports.items ≡ devices) }
    ensures new { IfOk result (λ ports. AreNewSides ports.items) }
{
    let mut ports = Vec::new(alloc);
    'ports: while ports.len() < devices as usize {
        ports.push(new_port(alloc))?;
    }
    Ok(ports)
}

// What an event at the port of a device is answered. Without memory the ports stay as they were.
pub fn at_port(
    alloc: Global,
    info: &MachInfo,
    ports: &mut [ServerPort],
    event: &PortEvent,
) -> Result<PortAnswer, NoMemory>
    requires { event.now.device < length ports.old }
    ensures answer { IfOk result (λ a. a ≡ (server_lower info.now event.now.link event.now.what (get_or ports.old event.now.device new_side)).0) }
    ensures step { OnOk result (ports.new ≡ slice_set ports.old event.now.device (server_lower info.now event.now.link event.now.what (get_or ports.old event.now.device new_side)).1) }
    ensures err { OnErr result (ports.new ≡ ports.old) }
{
    ports[event.device as usize].take(alloc, info, event.link, &event.what)
}
