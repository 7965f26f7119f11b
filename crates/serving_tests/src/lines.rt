//! Each form of a line.
use crate::words::text;
use connection_lines::{
    accepted_line, dialed_line, ended_line, failed_line, full_line, hint_line, known_line,
    quiet_line, shut_line, silent_line, stalled_line, stranger_line, works_line,
};
use moments::time_of;
use port_events::Side;
use port_session::End;
use stamped_lines::stamped;
use std::alloc::Global;
use std::test::Fail;

// The lines of one connection that was accepted and of one that was dialed, and of a dial that failed, at this port of this
// device.
fn all_lines(alloc: Global, side: Side, device: &str, number: u64) -> Result<String, Fail> {
    let device = text(alloc, device)?;
    let host = text(alloc, "gate 1.example")?;
    let mut all = String::new(alloc);
    let came = accepted_line(alloc, number, side, "[::1]:40122")?;
    all.push_str(came.as_str())?;
    let opened = dialed_line(alloc, number, side, &device, &host, 65535)?;
    all.push_str(opened.as_str())?;
    let ended = ended_line(alloc, number, side, &device, End::Stale)?;
    all.push_str(ended.as_str())?;
    let failed = failed_line(alloc, side, &device, &host, 0, "TimedOut")?;
    all.push_str(failed.as_str())?;
    Ok(all)
}

#[test]
fn each_line_has_its_form(rt: HostRuntime) -> Result<(), Fail> {
    let alloc = rt.alloc();
    let upper = all_lines(alloc, Side::Upper, "dev1", 3)?;
    assert_eq!(rt;
        upper.as_str(),
        "connection 3 upper from [::1]:40122
connection 3 upper dev1 to gate 1.example:65535
connection 3 upper dev1 ended: Stale
dial upper dev1 to gate 1.example:0 failed: TimedOut
"
    );
    let lower = all_lines(alloc, Side::Lower, "a\tb\r\nc\u{e9}", u64::MAX)?;
    assert_eq!(rt;
        lower.as_str(),
        "connection 18446744073709551615 lower from [::1]:40122
connection 18446744073709551615 lower a b  c\u{e9} to gate 1.example:65535
connection 18446744073709551615 lower a b  c\u{e9} ended: Stale
dial lower a b  c\u{e9} to gate 1.example:0 failed: TimedOut
"
    );
    let editor = all_lines(alloc, Side::Editor, "", 0)?;
    assert_eq!(rt;
        editor.as_str(),
        "connection 0 editor from [::1]:40122
connection 0 editor to gate 1.example:65535
connection 0 editor ended: Stale
dial editor to gate 1.example:0 failed: TimedOut
"
    );
    Ok(())
}

// What is said of a port and of its connections beside what comes and ends.
fn port_lines(alloc: Global) -> Result<String, Fail> {
    let device = text(alloc, "dev1")?;
    let mut all = String::new(alloc);
    all.push_str(known_line(alloc, 6, Side::Upper, &device)?.as_str())?;
    all.push_str(stranger_line(alloc, 7, Side::Lower, &device)?.as_str())?;
    all.push_str(quiet_line(alloc, 7, Side::Lower, 600)?.as_str())?;
    all.push_str(hint_line(alloc, 8, Side::Editor, "it looks odd")?.as_str())?;
    all.push_str(silent_line(alloc, Side::Upper, &device, 30)?.as_str())?;
    all.push_str(stalled_line(alloc, Side::Upper, "Too many open files")?.as_str())?;
    all.push_str(works_line(alloc, Side::Upper)?.as_str())?;
    all.push_str(full_line(alloc, Side::Editor, 4000)?.as_str())?;
    all.push_str(shut_line(alloc, Side::Lower)?.as_str())?;
    Ok(all)
}

#[test]
fn each_line_of_a_port_has_its_form(rt: HostRuntime) -> Result<(), Fail> {
    let all = port_lines(rt.alloc())?;
    assert_eq!(rt;
        all.as_str(),
        "connection 6 upper is dev1
connection 7 lower is dev1, which the settings don't have
connection 7 lower sent nothing for 600 s
connection 8 editor: it looks odd
upper dev1 hasn't answered for 30 s
port upper can't take connections: Too many open files
port upper takes connections again
port editor has 4000 connections and takes no more
port lower ended, with no memory or thread for a connection; the program ends
"
    );
    Ok(())
}

#[test]
fn the_time_stands_in_front_of_a_line(rt: HostRuntime) -> Result<(), Fail> {
    let alloc = rt.alloc();
    let line = stamped(alloc, true, time_of(1_796_101_331), "a line\n")?;
    assert_eq!(rt; line.as_str(), "<4>2026-12-01T05:02:11Z a line\n");
    let line = stamped(alloc, false, time_of(951_782_399), "a line\n")?;
    assert_eq!(rt; line.as_str(), "2000-02-28T23:59:59Z a line\n");
    let line = stamped(alloc, false, time_of(u64::MAX), "a line\n")?;
    assert_eq!(rt; line.as_str(), "a line\n");
    Ok(())
}
