//! Which end the doors have, which jobs are started, and which connections are left.
use crate::fresh::Fresh;
use crate::names::{id, peer, two_names, two_peers};
use crate::noting::{Noting, time};
use crate::plans::{Crew, Memory, count_door, count_jobs, gate_ports, server_ports};
use mos_io::{FixedClock, MemPacer, Pace};
use port_doors::{DoorEnd, GatePorts, ServerPorts, serve_gate, serve_server};
use std::alloc::Global;
use std::sync::Wait;
use std::test::Fail;
use std::thread::Threads;

/// Serves two devices, `a` and `b`, with a dialer of so many connections, whose pacer gives one pace before it stops.
pub fn serve_two<R: Threads + Wait + Copy + Drop + Send + Sync>(
    rt: &R,
    alloc: Global,
    ports: &mut ServerPorts<Memory, Crew<R>>,
    dials: u64,
    budget: u64,
) -> Result<DoorEnd, Fail> {
    let ncs = id(alloc, 'n')?;
    let paces = Vec::from_slice(alloc, &[Pace::Again])?;
    let peers = two_peers(alloc)?;
    let names = two_names(alloc)?;
    Ok(serve_server(
        rt,
        alloc,
        (Noting::new(alloc), ()),
        names,
        ncs,
        &peers,
        budget,
        ports,
        Fresh::new(alloc, dials),
        MemPacer::new(alloc, paces),
        FixedClock::new(time()),
    ))
}

/// Serves as the gateway `m` of the server `n`.
pub fn serve_one<R: Threads + Wait + Copy + Drop + Send + Sync>(
    rt: &R,
    alloc: Global,
    ports: &mut GatePorts<Memory, Crew<R>>,
) -> Result<DoorEnd, Fail> {
    let mos = id(alloc, 'm')?;
    let ncs = id(alloc, 'n')?;
    let peer = peer(alloc, 's', 5, 6)?;
    Ok(serve_gate(
        rt,
        alloc,
        (Noting::new(alloc), ()),
        mos,
        ncs,
        &peer,
        1_000_000,
        ports,
        Fresh::new(alloc, 0),
        MemPacer::new(alloc, Vec::new(alloc)),
        FixedClock::new(time()),
    ))
}

// The end; how many jobs dial; how many were started at each door; and how many connections are left at each.
fn server_comes_to<R: Threads + Wait + Copy + Drop + Send + Sync>(
    rt: &R,
    alloc: Global,
    plan: &str,
) -> Result<String, Fail> {
    let mut ports = server_ports(alloc, plan.as_bytes(), b"a")?;
    let end = serve_two(rt, alloc, &mut ports, 0, 1_000_000)?;
    let ServerPorts {
        upper,
        lower,
        editor,
        drivers,
    } = ports;
    let dialing = count_jobs(drivers);
    let (a, x) = count_door(upper);
    let (b, y) = count_door(lower);
    let (c, z) = count_door(editor);
    Ok(format!(in alloc; "{end:?} {dialing} {a}{b}{c} {x}{y}{z}")?)
}

// The same of a gateway.
fn gate_comes_to<R: Threads + Wait + Copy + Drop + Send + Sync>(
    rt: &R,
    alloc: Global,
    plan: &str,
) -> Result<String, Fail> {
    let mut ports = gate_ports(alloc, plan.as_bytes(), b"m")?;
    let end = serve_one(rt, alloc, &mut ports)?;
    let GatePorts {
        upper,
        lower,
        drivers,
    } = ports;
    let dialing = count_jobs(drivers);
    let (a, x) = count_door(upper);
    let (b, y) = count_door(lower);
    Ok(format!(in alloc; "{end:?} {dialing} {a}{b} {x}{y}")?)
}

/// Plans of a server of two devices, and what they come to.
const SERVERS: &str = "0-- 0-- 0-- - = Closed 4 000 000
2-- 1-- 3-- - = Closed 4 213 000
2-- 0-- 0-- - = Closed 4 200 000
0-- 0-- 5-- - = Closed 4 005 000
00- 0-- 0-- - = ListenFault 4 000 000
21- 1-- 3-- - = ListenFault 4 113 100
1-- 10- 1-- - = ListenFault 4 101 010
1-- 1-- 22- - = ListenFault 4 112 000
22- 22- 20- - = ListenFault 4 220 002
23- 22- 2-- - = ListenFault 4 222 000
3-1 1-- 1-- - = NoWorker 4 111 100
1-- 2-0 1-- - = NoWorker 4 101 010
1-- 1-- 4-3 - = NoWorker 4 113 000
3-3 1-- 1-- - = Closed 4 311 000
01- 2-0 0-- - = NoWorker 4 000 010
10- 1-0 1-0 - = ListenFault 4 000 100
1-0 10- 10- - = NoWorker 4 000 011
1-- 1-0 10- - = NoWorker 4 100 001
1-- 10- 1-0 - = ListenFault 4 100 010
2-- 1-- 3-- 0 = NoWorker 0 000 213
2-- 1-- 3-- 1 = NoWorker 1 000 213
20- 1-0 3-- 3 = NoWorker 3 000 213
2-- 1-- 3-- 4 = Closed 4 213 000";

/// Plans of a gateway, and what they come to.
const GATEWAYS: &str = "0-- 0-- - = Closed 2 00 00
2-- 3-- - = Closed 2 23 00
21- 3-- - = ListenFault 2 13 10
2-- 3-1 - = NoWorker 2 21 01
2-0 30- - = NoWorker 2 00 13
20- 3-0 - = ListenFault 2 00 22
2-- 3-- 0 = NoWorker 0 00 23
2-- 3-- 1 = NoWorker 1 00 23
2-- 3-- 2 = Closed 2 23 00";

#[test]
fn a_server_ends_by_the_first_door_that_fails(rt: HostRuntime) -> Result<(), Fail> {
    for row in SERVERS.lines() {
        let (plan, wanted) = row.split_once(" = ").ok_or("no row")?;
        let came = server_comes_to(&rt, rt.alloc(), plan)?;
        assert_eq!(rt; came.as_str(), wanted, "{plan}");
    }
    Ok(())
}

#[test]
fn a_gateway_ends_so_too(rt: HostRuntime) -> Result<(), Fail> {
    for row in GATEWAYS.lines() {
        let (plan, wanted) = row.split_once(" = ").ok_or("no row")?;
        let came = gate_comes_to(&rt, rt.alloc(), plan)?;
        assert_eq!(rt; came.as_str(), wanted, "{plan}");
    }
    Ok(())
}
