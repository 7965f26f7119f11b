//! What becomes of connections once their jobs run.
use crate::doors::{serve_one, serve_two};
use crate::fresh::Fresh;
use crate::noting::{Noting, digit};
use crate::plans::{Crew, Doing, gate_ports, server_ports};
use crate::texts::{end_word, text_of};
use mos_fields::{NoMemory, let_go};
use mos_io::{MemPacer, MemSink, MemSource};
use port_doors::{GatePorts, ServerPorts};
use port_jobs::{PortJob, Work};
use port_links::Job;
use port_session::End;
use std::alloc::Global;
use std::sync::{Arc, Wait};
use std::test::Fail;
use std::thread::Threads;

type Done = Work<Noting, (), MemSource, MemSink, Fresh, MemPacer>;

// The device or `-`, how the connection ended, and what was written.
fn push_served(
    device: Option<u32>,
    end: End,
    written: &[u8],
    out: &mut Vec<u8>,
) -> Result<(), NoMemory> {
    match device {
        Some(device) => out.push(digit(device.into()))?,
        None => out.push(b'-')?,
    }
    out.push(b' ')?;
    out.extend_from_slice(end_word(end).as_bytes())?;
    out.push(b' ')?;
    for (place, byte) in written.iter().enumerate() {
        if place % 2 == 1 {
            out.push(*byte)?;
        }
    }
    Ok(())
}

// The same, or `drove` for a worker that dialed.
fn push_work(work: &Done, out: &mut Vec<u8>) -> Result<(), NoMemory> {
    match work {
        Work::Served {
            pass: _,
            source: _,
            sink,
            device,
            end,
        } => push_served(*device, *end, sink.bytes(), out),
        Work::Drove {
            pass: _,
            dialer: _,
            pacer: _,
            starved: _,
        } => {
            out.extend_from_slice(b"drove")?;
            Ok(())
        }
    }
}

// Does a job and notes what came of it. Whether there was memory for that.
fn run_job<R: Wait + Copy + Drop>(job: Doing<R>, out: &mut Vec<u8>) -> bool {
    let work = job.run();
    let pushed = push_work(&work, out).is_ok();
    let_go(work);
    pushed
}

// Does the jobs of a spawner, the last one first, at most nine.
fn run_all<R: Wait + Copy + Drop>(crew: Crew<R>, out: &mut Vec<u8>) -> bool {
    let mut jobs = crew.into_jobs();
    for _ in 0..9u32 {
        match jobs.pop() {
            Some(job) => {
                if !run_job(job, out) {
                    return false;
                }
            }
            None => return true,
        }
    }
    false
}

// What the hub of this job was told, where no other job is left. The job is let go.
fn log_of<R: Wait + Copy + Drop>(rt: &R, job: Doing<R>) -> Option<Vec<u8>> {
    let PortJob {
        rt: _,
        alloc: _,
        hub,
        pass,
        port: _,
        names: _,
        budget: _,
        task: _,
    } = job;
    let hub = Arc::into_inner(hub)?;
    let (machine, ()) = hub.close(rt, pass);
    Some(machine.log)
}

// What a connection with this text comes to, which comes at the only door of the plan at which one does.
fn comes_to<R: Threads + Wait + Copy + Drop + Send + Sync>(
    rt: &R,
    alloc: Global,
    plan: &[u8],
    letters: &[u8],
    budget: u64,
) -> Result<Vec<u8>, Fail> {
    let mut ports = server_ports(alloc, plan, letters)?;
    let_go(serve_two(rt, alloc, &mut ports, 0, budget)?);
    let ServerPorts {
        upper,
        lower,
        editor,
        drivers,
    } = ports;
    let_go(drivers);
    let mut out = Vec::new(alloc);
    let upper = run_all(upper.spawner, &mut out);
    let lower = run_all(lower.spawner, &mut out);
    let editor = run_all(editor.spawner, &mut out);
    if upper && lower && editor {
        Ok(out)
    } else {
        Ok(Vec::new(alloc))
    }
}

// The same at a gateway's doors.
fn gate_comes_to<R: Threads + Wait + Copy + Drop + Send + Sync>(
    rt: &R,
    alloc: Global,
    plan: &[u8],
    letters: &[u8],
) -> Result<Vec<u8>, Fail> {
    let mut ports = gate_ports(alloc, plan, letters)?;
    let_go(serve_one(rt, alloc, &mut ports)?);
    let GatePorts {
        upper,
        lower,
        drivers,
    } = ports;
    let_go(drivers);
    let mut out = Vec::new(alloc);
    let upper = run_all(upper.spawner, &mut out);
    let lower = run_all(lower.spawner, &mut out);
    if upper && lower {
        Ok(out)
    } else {
        Ok(Vec::new(alloc))
    }
}

// The wanted words, with the text of the letters behind them.
fn wanted_bytes(alloc: Global, wanted: &str) -> Result<Vec<u8>, Fail> {
    let (words, letters) = wanted.rsplit_once(" ").ok_or("no row")?;
    let mut bytes = Vec::from_slice(alloc, words.as_bytes())?;
    bytes.push(b' ')?;
    bytes.extend_from_slice(text_of(alloc, letters.as_bytes())?.as_slice())?;
    Ok(bytes)
}

/// Doors and connections of a server, and what comes of them: the device, the end, and what is written.
const SERVED: &str = "1-- 0-- 0-- - a = 0 Closed a
1-- 0-- 0-- - b = 1 Closed b
0-- 1-- 0-- - b = 1 Closed b
1-- 0-- 0-- - bb = 1 Closed bb
1-- 0-- 0-- - ba = 1 Closed bA
0-- 1-- 0-- -  = 0 Closed 
1-- 0-- 0-- - x = 0 Closed X
1-- 0-- 0-- - xb = 0 Closed XB
1-- 0-- 0-- - xa = 0 Closed Xa
1-- 0-- 0-- - b( = 1 Truncated b
1-- 0-- 0-- - b! = 1 BadMessage b
1-- 0-- 0-- - ( = 0 Truncated 
1-- 0-- 0-- - !b = 0 BadMessage 
0-- 0-- 1-- - a = - Closed a
0-- 0-- 1-- - xb = - Closed xb
0-- 0-- 1-- - x! = - BadMessage x";

/// The same of a gateway.
const GATE_SERVED: &str = "1-- 0-- - m = - Closed m
1-- 0-- - mm = - Closed mm
1-- 0-- - xm = - Closed Xm
0-- 1-- - m( = - Truncated m";

#[test]
fn a_connection_belongs_to_the_device_that_its_first_message_names(
    rt: HostRuntime,
) -> Result<(), Fail> {
    let alloc = rt.alloc();
    for row in SERVED.lines() {
        let (play, wanted) = row.split_once(" = ").ok_or("no row")?;
        let (plan, letters) = play.rsplit_once(" ").ok_or("no row")?;
        let came = comes_to(&rt, alloc, plan.as_bytes(), letters.as_bytes(), 1_000_000)?;
        assert_eq!(rt;
            came.as_slice(),
            wanted_bytes(alloc, wanted)?.as_slice(),
            "{row}"
        );
    }
    Ok(())
}

#[test]
fn at_a_gateway_each_connection_is_its_own(rt: HostRuntime) -> Result<(), Fail> {
    let alloc = rt.alloc();
    for row in GATE_SERVED.lines() {
        let (play, wanted) = row.split_once(" = ").ok_or("no row")?;
        let (plan, letters) = play.rsplit_once(" ").ok_or("no row")?;
        let came = gate_comes_to(&rt, alloc, plan.as_bytes(), letters.as_bytes())?;
        assert_eq!(rt;
            came.as_slice(),
            wanted_bytes(alloc, wanted)?.as_slice(),
            "{row}"
        );
    }
    Ok(())
}

/// Budgets of a connection of `b`, whose two heartbeats have 244 bytes each.
const BUDGETS: &str = "0 = 0 Budget 
243 = 0 Budget 
244 = 1 Budget b
245 = 1 Budget b
487 = 1 Budget b
488 = 1 Budget bb
489 = 1 Closed bb";

#[test]
fn the_budget_counts_what_the_look_has_read(rt: HostRuntime) -> Result<(), Fail> {
    let alloc = rt.alloc();
    for row in BUDGETS.lines() {
        let (budget, wanted) = row.split_once(" = ").ok_or("no row")?;
        let budget = budget.parse::<u64>().map_err(|_| "no budget")?;
        let came = comes_to(&rt, alloc, b"1-- 0-- 0-- -", b"bb", budget)?;
        assert_eq!(rt;
            came.as_slice(),
            wanted_bytes(alloc, wanted)?.as_slice(),
            "{row}"
        );
    }
    Ok(())
}

// Does the jobs of a spawner in turn, but for the last one, which comes back undone.
fn run_but_last<R: Wait + Copy + Drop>(crew: Crew<R>, out: &mut Vec<u8>) -> Option<Doing<R>> {
    let mut jobs = crew.into_jobs();
    let last = jobs.pop();
    for _ in 0..9u32 {
        if jobs.is_empty() {
            return last;
        }
        let job = jobs.remove(0);
        if !run_job(job, out) {
            return None;
        }
    }
    None
}

#[test]
fn a_job_that_is_dropped_is_no_event_and_stops_no_other(rt: HostRuntime) -> Result<(), Fail> {
    let alloc = rt.alloc();
    let mut ports = server_ports(alloc, b"1-- 1-- 3-- -", b"b")?;
    let_go(serve_two(&rt, alloc, &mut ports, 0, 1_000_000)?);
    let ServerPorts {
        upper,
        lower,
        editor,
        drivers,
    } = ports;
    let_go(drivers);
    let_go(lower);
    let mut out = Vec::new(alloc);
    let ran = run_all(upper.spawner, &mut out);
    let last = run_but_last(editor.spawner, &mut out).ok_or("no job")?;
    let log = log_of(&rt, last).ok_or("another job is left")?;
    assert!(rt; ran);
    assert_eq!(rt;
        log.as_slice(),
        b"Au10 Hu10 Iu10 Ae00 He00 Ie00 Ae01 He01 Ie01 ".as_slice()
    );
    Ok(())
}

// What the hub is told by the workers that dial, but for the last one, with a dialer of so many connections.
fn dials<R: Threads + Wait + Copy + Drop + Send + Sync>(
    rt: &R,
    alloc: Global,
    count: u64,
) -> Result<Vec<u8>, Fail> {
    let mut ports = server_ports(alloc, b"0-- 0-- 0-- -", b"")?;
    let_go(serve_two(rt, alloc, &mut ports, count, 1_000_000)?);
    let mut out = Vec::new(alloc);
    let last = run_but_last(ports.drivers, &mut out).ok_or("no job")?;
    Ok(log_of(rt, last).ok_or("another job is left")?)
}

#[test]
fn a_worker_dials_drives_and_dials_again(rt: HostRuntime) -> Result<(), Fail> {
    let alloc = rt.alloc();
    assert_eq!(rt; dials(&rt, alloc, 0)?.as_slice(), b"".as_slice());
    assert_eq!(rt;
        dials(&rt, alloc, 1)?.as_slice(),
        b"Du07 Nu07 Wu07 Nu07 Nu07 Ou07 Dl07 Nl07 Wl07 Nl07 Nl07 Ol07 Du17 Nu17 Wu17 Nu17 Nu17 Ou17 ".as_slice()
    );
    Ok(())
}
