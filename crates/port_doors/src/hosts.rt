//! What the loops of the doors need.
ghost use Rattle.std.specs.Prelude.{◌≡◌, Some, None, IfOk};
ghost use Rattle.std.specs.Arc.{arc_value};
ghost use Rattle.std.specs.Option.{option_map};
ghost use Rattle.port_events.specs.declared.event.Side.TheVariants.{Upper, Lower, Editor};
ghost use Rattle.shared_machine.specs.Passes.{IsPassOf};
ghost use Rattle.port_doors.specs.Calls.{IsDoorPort};

use crate::copies::share_hub;
use crate::door::DoorPort;
use crate::lane::Host;
use mos_fields::{Id, NoMemory, pair_ok, triple_ok};
use port_events::{PortAnswer, PortEvent, Side};
use port_jobs::Names;
use port_session::Port;
use shared_machine::{Hub, Machine, Pass, StepRelation};
use std::alloc::Global;
use std::marker::PhantomData;
use std::sync::{Arc, Wait};

/// What the loops of a server's doors need.
#[derive(Drop)]
pub struct ServerHosts<
    M: StepRelation<Event = PortEvent, Answer = PortAnswer> + Machine<D>,
    D: Drop,
    Di: Drop,
    P: Drop,
    C: Drop,
    R: Wait + Drop,
> {
    pub upper: Host<M, D, Di, P, C, R>,
    pub lower: Host<M, D, Di, P, C, R>,
    pub editor: Host<M, D, Di, P, C, R>,
    pub ghost sides: { (upper.at.port.side ≡ Upper) × (lower.at.port.side ≡ Lower) × (editor.at.port.side ≡ Editor) },
}

/// What the loops of a gateway's doors need.
#[derive(Drop)]
pub struct GateHosts<
    M: StepRelation<Event = PortEvent, Answer = PortAnswer> + Machine<D>,
    D: Drop,
    Di: Drop,
    P: Drop,
    C: Drop,
    R: Wait + Drop,
> {
    pub upper: Host<M, D, Di, P, C, R>,
    pub lower: Host<M, D, Di, P, C, R>,
    pub ghost sides: { (upper.at.port.side ≡ Upper) × (lower.at.port.side ≡ Lower) },
}

// What the connections of the door on this side are served at.
fn door_port(
    side: Side,
    mos: &Id,
    ncs: &Id,
    names: Option<Arc<Names>>,
    budget: u64,
) -> Result<DoorPort, NoMemory>
    ensures { IfOk result (λ at. IsDoorPort side mos.now ncs.now (option_map arc_value names) budget at) }
{
    let ((mos, ncs), names) = pair_ok(pair_ok(mos.try_clone(), ncs.try_clone()), Ok(names))?;
    Ok(DoorPort {
        port: Port {
            side,
            device: None,
            link: 0,
            mos,
            ncs,
        },
        names,
        budget,
    })
}

// The same, with the devices' names, one of which replaces the port's mosID.
fn named_port(side: Side, names: &Arc<Names>, ncs: &Id, budget: u64) -> Result<DoorPort, NoMemory>
    ensures { IfOk result (λ at. IsDoorPort side ncs.now ncs.now (Some (arc_value names.now)) budget at) }
{
    let names = Arc::try_clone(names)?;
    door_port(side, ncs, ncs, Some(names), budget)
}

// What the loop of one more door needs.
fn new_host<
    M: StepRelation<Event = PortEvent, Answer = PortAnswer> + Machine<D>,
    D: Drop,
    Di: Drop,
    P: Drop,
    C: Drop,
    R: Wait + Copy + Drop,
>(
    rt: &R,
    alloc: Global,
    hub: &Arc<Hub<M, D>>,
    pass: &mut Pass<M, D>,
    at: DoorPort,
) -> Result<Host<M, D, Di, P, C, R>, NoMemory>
    requires { IsPassOf (arc_value hub.now) pass.old }
    ensures same { pass.new ≡ pass.old }
    ensures at { IfOk result (λ host. host.at ≡ at) }
    ensures hub { IfOk result (λ host. arc_value host.hub ≡ arc_value hub.now) }
{
    let (theirs, own) = share_hub(hub, pass)?;
    Ok(Host {
        rt: *rt,
        alloc,
        hub: theirs,
        pass: own,
        at,
        of: PhantomData,
    })
}

/// What the loops of a server's doors need: at the upper and the lower one the devices have these names.
pub(crate) fn server_hosts<
    M: StepRelation<Event = PortEvent, Answer = PortAnswer> + Machine<D>,
    D: Drop,
    Di: Drop,
    P: Drop,
    C: Drop,
    R: Wait + Copy + Drop,
>(
    rt: &R,
    alloc: Global,
    hub: &Arc<Hub<M, D>>,
    pass: &mut Pass<M, D>,
    names: &Arc<Names>,
    ncs: &Id,
    budget: u64,
) -> Result<ServerHosts<M, D, Di, P, C, R>, NoMemory>
    requires { IsPassOf (arc_value hub.now) pass.old }
    ensures same { pass.new ≡ pass.old }
    ensures upper { IfOk result (λ hosts. IsDoorPort Upper ncs.now ncs.now (Some (arc_value names.now)) budget hosts.upper.at) }
    ensures lower { IfOk result (λ hosts. IsDoorPort Lower ncs.now ncs.now (Some (arc_value names.now)) budget hosts.lower.at) }
    ensures editor { IfOk result (λ hosts. IsDoorPort Editor ncs.now ncs.now None budget hosts.editor.at) }
{
    let (upper, lower, editor) = triple_ok(
        named_port(Side::Upper, names, ncs, budget),
        named_port(Side::Lower, names, ncs, budget),
        door_port(Side::Editor, ncs, ncs, None, budget),
    )?;
    let (upper, lower, editor) = triple_ok(
        new_host(rt, alloc, hub, pass, upper),
        new_host(rt, alloc, hub, pass, lower),
        new_host(rt, alloc, hub, pass, editor),
    )?;
    Ok(ServerHosts {
        upper,
        lower,
        editor,
    })
}

/// What the loops of a gateway's doors need.
pub(crate) fn gate_hosts<
    M: StepRelation<Event = PortEvent, Answer = PortAnswer> + Machine<D>,
    D: Drop,
    Di: Drop,
    P: Drop,
    C: Drop,
    R: Wait + Copy + Drop,
>(
    rt: &R,
    alloc: Global,
    hub: &Arc<Hub<M, D>>,
    pass: &mut Pass<M, D>,
    mos: &Id,
    ncs: &Id,
    budget: u64,
) -> Result<GateHosts<M, D, Di, P, C, R>, NoMemory>
    requires { IsPassOf (arc_value hub.now) pass.old }
    ensures same { pass.new ≡ pass.old }
    ensures upper { IfOk result (λ hosts. IsDoorPort Upper mos.now ncs.now None budget hosts.upper.at) }
    ensures lower { IfOk result (λ hosts. IsDoorPort Lower mos.now ncs.now None budget hosts.lower.at) }
{
    let (upper, lower) = pair_ok(
        door_port(Side::Upper, mos, ncs, None, budget),
        door_port(Side::Lower, mos, ncs, None, budget),
    )?;
    let (upper, lower) = pair_ok(
        new_host(rt, alloc, hub, pass, upper),
        new_host(rt, alloc, hub, pass, lower),
    )?;
    Ok(GateHosts { upper, lower })
}
