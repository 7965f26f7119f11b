//! What jobs are given.
use crate::doors::{serve_one, serve_two};
use crate::noting::{digit, side_letter};
use crate::plans::{Crew, Doing, gate_ports, server_ports};
use mos_fields::{NoMemory, let_go};
use port_doors::{GatePorts, ServerPorts};
use port_jobs::Task;
use std::alloc::Global;
use std::sync::Wait;
use std::test::Fail;

// A letter of the port, the device or `-`, the mosID, and where it dials or which connection it serves.
fn push_job<R: Wait + Drop>(job: &Doing<R>, out: &mut Vec<char>) -> Result<(), NoMemory> {
    out.push(side_letter(job.port.side).into())?;
    match job.port.device {
        Some(device) => out.push(digit(device.into()).into())?,
        None => out.push('-')?,
    }
    job.port.mos.push_to(out)?;
    match &job.task {
        Task::Serve(link) => {
            out.push('#')?;
            out.push(digit(link.number).into())?;
        }
        Task::Dial {
            place,
            dialer: _,
            pacer: _,
            clock: _,
        } => {
            place.host.push_to(out)?;
            out.push(digit(place.port.into()).into())?;
        }
    }
    out.push(' ')?;
    Ok(())
}

fn push_jobs<R: Wait + Drop>(jobs: &[Doing<R>], out: &mut Vec<char>) -> Result<(), NoMemory> {
    for job in jobs {
        push_job(job, out)?;
    }
    Ok(())
}

// Notes the jobs of a spawner, which are let go. Whether there was memory for it.
fn note<R: Wait + Drop>(crew: Crew<R>, out: &mut Vec<char>) -> bool {
    let jobs = crew.into_jobs();
    let pushed = push_jobs(&jobs, out).is_ok();
    let_go(jobs);
    pushed
}

fn text(alloc: Global, notes: &[char]) -> Result<String, Fail> {
    Ok(notes.iter().collect::<String>(alloc)?)
}

#[test]
fn a_server_dials_both_ports_of_each_device(rt: HostRuntime) -> Result<(), Fail> {
    let alloc = rt.alloc();
    let mut ports = server_ports(alloc, b"1-- 2-- 1-- -", b"a")?;
    let_go(serve_two(&rt, alloc, &mut ports, 0, 1_000_000)?);
    let ServerPorts {
        upper,
        lower,
        editor,
        drivers,
    } = ports;
    let mut notes = Vec::new(alloc);
    assert!(rt; note(drivers, &mut notes));
    assert!(rt; note(upper.spawner, &mut notes));
    assert!(rt; note(lower.spawner, &mut notes));
    assert!(rt; note(editor.spawner, &mut notes));
    assert_eq!(rt;
        text(alloc, &notes)?.as_str(),
        "u0ap1 l0ap2 u1bq3 l1bq4 u-n#0 l-n#0 l-n#1 e-n#0 "
    );
    Ok(())
}

#[test]
fn a_gateway_dials_both_ports_of_the_server(rt: HostRuntime) -> Result<(), Fail> {
    let alloc = rt.alloc();
    let mut ports = gate_ports(alloc, b"1-- 2-- -", b"m")?;
    let_go(serve_one(&rt, alloc, &mut ports)?);
    let GatePorts {
        upper,
        lower,
        drivers,
    } = ports;
    let mut notes = Vec::new(alloc);
    assert!(rt; note(drivers, &mut notes));
    assert!(rt; note(upper.spawner, &mut notes));
    assert!(rt; note(lower.spawner, &mut notes));
    assert_eq!(rt;
        text(alloc, &notes)?.as_str(),
        "u-ms5 l-ms6 u-m#0 l-m#0 l-m#1 "
    );
    Ok(())
}
