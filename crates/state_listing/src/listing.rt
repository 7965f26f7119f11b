//! The lines of the orders, and of a device.
ghost use Rattle.std.specs.Prelude.{◌≡◌, ◌++◌, ◌+◌, ◌<◌, OnOk};
ghost use Rattle.std.specs.List.{flat_map};
ghost use Rattle.mos_machines.specs.Tables.{look, gate_of};
ghost use Rattle.ncs_core.specs.State.{ncs_of, devices_of};
ghost use Rattle.world_scripts.specs.Listing.{entered, order_line};
ghost use Rattle.state_listing.specs.Told.{AreDeviceLines};

use crate::device::{known_ids, push_device_line, push_held_lines};
use crate::orders::push_order_line;
use crate::server::{push_server_line, push_view_lines};
use gateway_core::Gate;
use mos_fields::{Id, NoMemory};
use ncs_core::Ncs;
use order_table::OrderTable;
use rundown_log::Keeper;
use std::alloc::Global;

/// Appends the lines of orders.
fn push_order_lines<K: Keeper>(
    alloc: Global,
    out: &mut Vec<u8>,
    ncs: &Ncs<K>,
    ids: &[Id],
) -> Result<(), NoMemory>
    ensures { OnOk result (out.new.items ≡ out.old.items ++ flat_map (order_line ncs.now.server.journal) ids.now) }
{
    'ids: for ro in ids {
        push_order_line(alloc, out, ncs, ro)?;
    }
    Ok(())
}

/// Appends the line of each order that has an entry, by their roIDs. The only error is that memory runs out; some of the
/// lines may be there then.
pub fn push_orders<K: Keeper>(
    alloc: Global,
    out: &mut Vec<u8>,
    ncs: &Ncs<K>,
) -> Result<(), NoMemory>
    ensures { OnOk result (out.new.items ≡ out.old.items ++ flat_map (order_line ncs.now.server.journal) (entered ncs.now.server.journal)) }
{
    let ids = ncs.entered_ids()?;
    push_order_lines(alloc, out, ncs, &ids)
}

/// Appends the lines of a device: the server's connection to it, the server's views of what it holds, its own connections,
/// and what it holds. `applied` has how many entries of each order it has applied. The server counts its devices from 0,
/// and the lines count them from 1.
///
/// The only error is that memory runs out; some of the lines may be there then.
pub fn push_device<K: Keeper>(
    alloc: Global,
    out: &mut Vec<u8>,
    ncs: &Ncs<K>,
    d: u32,
    gate: &Gate,
    applied: &OrderTable<u64>,
) -> Result<(), NoMemory>
    requires { d < devices_of ncs.now }
    ensures { OnOk result (AreDeviceLines ncs.now.server.journal (d + 1) ((ncs_of ncs.now).peers d) (gate_of gate.now) (look 0 applied.now) out.old.items out.new.items) }
{
    let viewed = ncs.viewed_ids(d)?;
    let known = known_ids(alloc, gate)?;
    push_server_line(alloc, out, ncs, d)?;
    push_view_lines(alloc, out, ncs, d, &viewed)?;
    push_device_line(alloc, out, d, gate)?;
    push_held_lines(alloc, out, d, gate, applied, &known)
}
