//! The record of the disk in memory, and what it stands for.
ghost use Rattle.std.specs.Prelude.{◌≡◌, ◌+◌, ◌≤◌, ◌++◌, [], ◌∷◌, true, false, IfOk, OnOk, replicate, take, drop, length};
ghost use Rattle.disks.specs.Model.{CountsFaults, written as written_of};
ghost use Rattle.disks.specs.declared.call.Call.TheVariants.{Wrote as wrote};
ghost use Rattle.disks.specs.Memory.{after_call, after_calls, filled_call, filled_calls, Notes, NotesWrite};

use crate::call::Call;
use mos_fields::NoMemory;
use mos_io::Failed;
use std::alloc::Global;

/// Whether the next call is to succeed. It counts the calls.
pub fn next_done(call: &mut u64, fails: &[u64]) -> bool {
    let number = *call;
    *call = number.saturating_add(1);
    !fails.contains(&number)
}

/// This value where the call was done and noted, and else the fault, which is counted.
pub fn answered<T: Drop>(faults: &mut u64, done: bool, noted: bool, value: T) -> Result<T, Failed>
    ensures done { OnOk result ((done ≡ true) × (noted ≡ true)) }
    ensures value { IfOk result (λ x. x ≡ value) }
    ensures faults { CountsFaults faults.old faults.new result }
{
    if done && noted {
        return Ok(value);
    }
    *faults = faults.saturating_add(1);
    Err(Failed)
}

/// Notes a call, where there is memory; whether there is.
pub fn note(calls: &mut Vec<Call>, call: Call) -> bool
    ensures { Notes calls.old.items calls.new.items call result }
{
    calls.push(call).is_ok()
}

/// Notes a write, where there is memory; whether there is.
pub fn note_write(alloc: Global, calls: &mut Vec<Call>, at: u64, b: &[u8], done: bool) -> bool
    ensures { NotesWrite calls.old.items calls.new.items at b.now done result }
{
    match b.to_vec(alloc) {
        Ok(bytes) => note(calls, Call::Wrote { at, bytes, done }),
        Err(_) => false,
    }
}

/// The first bytes, at most so many.
fn front(bytes: &[u8], at: u64) -> &[u8]
    ensures { result.now ≡ take at bytes.now }
{
    &bytes[..bytes.len().min(at as usize)]
}

/// The bytes behind so many and so many more.
fn behind(bytes: &[u8], at: u64, n: usize) -> &[u8]
    ensures { result.now ≡ drop (at + n) bytes.now }
{
    match at.checked_add(n as u64) {
        Some(here) => bytes.get(here as usize..).unwrap_or(&[]),
        None => &[],
    }
}

/// A file with these bytes at this place.
fn write_over(alloc: Global, file: &[u8], at: u64, b: &[u8]) -> Result<Vec<u8>, NoMemory>
    ensures { IfOk result (λ v. v.items ≡ written_of at b.now file.now) }
{
    let mut next = front(file, at).to_vec(alloc)?;
    next.extend_from_slice(b)?;
    next.extend_from_slice(behind(file, at, b.len()))?;
    Ok(next)
}

/// What a read gives after one more call.
fn play(alloc: Global, file: Vec<u8>, call: &Call) -> Result<Vec<u8>, NoMemory>
    ensures { IfOk result (λ v. v.items ≡ after_call call.now file.items) }
{
    match call {
        Call::Wrote {
            at,
            bytes,
            done: true,
        } => write_over(alloc, &file, *at, bytes),
        Call::CutOff { to, done: true } => front(&file, *to).to_vec(alloc),
        _ => Ok(file),
    }
}

/// What a read gives after all these calls of a disk that held `first`.
pub fn replay(alloc: Global, first: &[u8], calls: &[Call]) -> Result<Vec<u8>, NoMemory>
    ensures { IfOk result (λ v. v.items ≡ after_calls first.now calls.now) }
{
    let mut file = first.to_vec(alloc)?;
    let mut rest = calls;
    'call: while let [call, more @ ..] = rest {
        file = play(alloc, file, call)?;
        rest = more;
    }
    Ok(file)
}

/// Of the files that a crash may leave, the one in which each range not synced holds this byte, after one more call.
fn fill(
    alloc: Global,
    file: &[u8],
    image: Vec<u8>,
    call: &Call,
    with: u8,
) -> Result<Vec<u8>, NoMemory>
    ensures { IfOk result (λ v. v.items ≡ filled_call with call.now file.now image.items) }
{
    match call {
        Call::Wrote { at, bytes, done: _ } => {
            let range = vec![in alloc; with; bytes.len()]?;
            write_over(alloc, &image, *at, &range)
        }
        Call::CutOff { to, done: true } => front(&image, *to).to_vec(alloc),
        Call::Synced { done: true } => file.to_vec(alloc),
        _ => Ok(image),
    }
}

/// The same after all these calls of a disk that held `first`.
pub fn filled(alloc: Global, first: &[u8], calls: &[Call], with: u8) -> Result<Vec<u8>, NoMemory>
    ensures { IfOk result (λ v. v.items ≡ filled_calls with first.now first.now calls.now) }
{
    let mut file = first.to_vec(alloc)?;
    let mut image = first.to_vec(alloc)?;
    let mut rest = calls;
    'call: while let [call, more @ ..] = rest {
        image = fill(alloc, &file, image, call, with)?;
        file = play(alloc, file, call)?;
        rest = more;
    }
    Ok(image)
}
