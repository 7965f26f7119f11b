//! What is said on standard error, a line each.
use mos_fields::NoMemory;
use stamped_lines::say;
use std::alloc::Global;
use std::io;

fn cut_line(
    alloc: Global,
    path: &str,
    from: u64,
    count: u64,
    number: u32,
) -> Result<String, NoMemory> {
    Ok(format!(in alloc;
        "disk {path}: {count} bytes from byte {from} on are no whole entry; they were saved as {path}.cut-{number} and cut off\n"
    )?)
}

/// Says that so many bytes from this one on are cut off, and were saved in the file of this number.
pub(crate) fn say_cut(rt: &HostRuntime, path: &str, from: u64, count: u64, number: u32) {
    say(
        rt,
        rt.alloc(),
        true,
        cut_line(rt.alloc(), path, from, count, number),
    );
}

fn unsaved_line(
    alloc: Global,
    path: &str,
    number: u32,
    fault: io::Error,
) -> Result<String, NoMemory> {
    Ok(format!(in alloc;
        "disk {path}: {path}.cut-{number} can't be written: {fault}; nothing was changed\n"
    )?)
}

/// Says that what was to be cut off can't be saved in the file of this number.
pub(crate) fn say_unsaved(rt: &HostRuntime, path: &str, number: u32, fault: io::Error) {
    say(
        rt,
        rt.alloc(),
        true,
        unsaved_line(rt.alloc(), path, number, fault),
    );
}

fn fault_line(alloc: Global, path: &str, fault: io::Error) -> Result<String, NoMemory> {
    Ok(format!(in alloc; "STORE FAULT: disk {path}: {fault}\n")?)
}

/// Says why a call failed.
pub(crate) fn say_fault(rt: &HostRuntime, path: &str, fault: io::Error) {
    say(rt, rt.alloc(), true, fault_line(rt.alloc(), path, fault));
}
