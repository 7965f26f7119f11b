//! What is said on standard error, a line each.
use crate::cause::Cause;
use mos_fields::NoMemory;
use stamped_lines::say;
use std::alloc::Global;
use std::time::Clock;

/// What a person is to do about a journal that is damaged.
const MEND: &str = "restore a copy, or cut the file there by hand (docs/OPERATING.md)";

/// Says that so many bytes were cut off at this byte, all of them zeros or not, and saved in the file of this number.
pub(crate) fn say_cut<R: AllocGlobal + Clock + Eprint>(
    rt: &R,
    path: &str,
    at: u64,
    count: u64,
    zeros: bool,
    number: u32,
) {
    let what = if zeros {
        "zero bytes behind the last message"
    } else {
        "bytes of a message that isn't whole"
    };
    say(
        rt,
        rt.alloc(),
        true,
        cut_line(rt.alloc(), path, at, count, what, number),
    );
}

fn cut_line(
    alloc: Global,
    path: &str,
    at: u64,
    count: u64,
    what: &str,
    number: u32,
) -> Result<String, NoMemory> {
    Ok(format!(in alloc;
        "log {path}: {count} {what} were cut off at byte {at} and saved as {path}.cut-{number}\n"
    )?)
}

fn fault_line(alloc: Global, path: &str, cause: Cause) -> Result<String, NoMemory> {
    Ok(match cause {
        Cause::NoMemory => format!(in alloc;
            "log {path}: there was no memory; nothing was changed\n"
        )?,
        Cause::System(fault) => format!(in alloc; "STORE FAULT: log {path}: {fault}\n")?,
        Cause::TooLong => format!(in alloc;
            "log {path}: a journal has at most 1,099,511,627,776 bytes; nothing was changed\n"
        )?,
        Cause::Damaged => {
            format!(in alloc; "log {path}: damaged; nothing was changed; restore a copy\n")?
        }
        Cause::Broken { at } => format!(in alloc;
            "log {path}: damaged at byte {at}: whole messages stand behind a message that isn't whole; nothing was changed; {MEND}\n"
        )?,
        Cause::Unsaved { number, fault } => format!(in alloc;
            "log {path}: {path}.cut-{number} can't be written: {fault}; nothing was changed\n"
        )?,
        Cause::Fewer => format!(in alloc;
            "log {path}: entries that were read before aren't there\n"
        )?,
    })
}

fn refused_line(alloc: Global, path: &str, at: u64) -> Result<String, NoMemory> {
    Ok(format!(in alloc;
        "log {path}: damaged at byte {at}: the message there is rejected, or is no entry; nothing was changed; {MEND}\n"
    )?)
}

/// Says why a load or an append failed.
pub(crate) fn say_fault<R: AllocGlobal + Clock + Eprint>(rt: &R, path: &str, cause: Cause) {
    say(rt, rt.alloc(), true, fault_line(rt.alloc(), path, cause));
}

/// Says that a message is rejected, or is no entry, which begins at this byte or behind white space there.
pub(crate) fn say_refused<R: AllocGlobal + Clock + Eprint>(rt: &R, path: &str, at: u64) {
    say(rt, rt.alloc(), true, refused_line(rt.alloc(), path, at));
}

fn loaded_line(alloc: Global, path: &str, count: usize) -> Result<String, NoMemory> {
    Ok(format!(in alloc; "log {path}: {count} entries\n")?)
}

/// Says how many entries a load found.
pub(crate) fn say_loaded<R: AllocGlobal + Clock + Eprint>(rt: &R, path: &str, count: usize) {
    say(rt, rt.alloc(), false, loaded_line(rt.alloc(), path, count));
}
