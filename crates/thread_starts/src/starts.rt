//! Starts of threads.
use connection_lines::{threads_again_line, waits_line};
use mos_io::Failed;
use port_links::Job;
use stamped_lines::say;
use std::alloc::Global;
use std::sync::Wait;
use std::sync::atomic::{AtomicBool, AtomicU64, Ordering};
use std::thread::{Builder, Promise, Threads};
use std::time::{Clock, Duration};

// The stack of a worker, in bytes. A session needs half of it; the system's look-up of a machine's name, which a worker
// that dials calls, may need more than that.
const STACK: usize = 524_288;

// How long to wait before a thread is asked for again, in milliseconds: at first, and at most. Each pause is twice as long as
// that before it.
const FIRST: u64 = 50;

const MOST: u64 = 1_000;

/// Nothing is said of what the thread returns.
#[derive(Clone, Copy)]
struct Unsaid;

impl Promise<()> for Unsaid {
    ghost kept_by = { λ _ _. Unit {0} };
}

// Sleeps so long; it may end early.
fn sleep_once<R: Wait>(rt: &R, length: Duration) {
    let never = AtomicU64::new(0);
    never.park_timeout(rt, 0, length);
}

// Notes that no thread can be made, and says so where that is news.
fn note_none<R: Eprint + Clock>(rt: &R, alloc: Global, short: &AtomicBool) {
    if !short.swap(true, Ordering::SeqCst) {
        say(rt, alloc, true, waits_line(alloc));
    }
}

// Notes that a thread could be made, at this attempt. One at the first attempt ends a shortage, and says so.
fn note_made<R: Eprint + Clock>(rt: &R, alloc: Global, short: &AtomicBool, attempt: u64) {
    if attempt == 0 && short.swap(false, Ordering::SeqCst) {
        say(rt, alloc, false, threads_again_line(alloc));
    }
}

/// Starts a thread that does the job and drops its report. Where no thread can be made, it waits until one can. It gives up
/// after 2^64 - 1 attempts; the job is dropped then.
///
/// All whose starts share `short`, which is false at first, say on standard error once that no thread can be made, and that
/// threads can be made again as soon as one is made without waiting.
pub fn start_thread<J: Job + Send + 'static, R: Threads + Wait + Clock + Eprint>(
    rt: &R,
    alloc: Global,
    short: &AtomicBool,
    job: J,
) -> Result<(), Failed>
where
    J::Report: Send + 'static,
{
    let mut work = move || {
        let _report = job.run();
    };
    let mut pause = FIRST;
    for attempt in 0..u64::MAX {
        match Builder::new()
            .stack_size(STACK)
            .spawn_with(rt, Unsaid, work)
        {
            Ok(_handle) => {
                note_made(rt, alloc, short, attempt);
                return Ok(());
            }
            Err(refused) => work = refused.value,
        }
        note_none(rt, alloc, short);
        sleep_once(rt, Duration::from_millis(pause));
        pause = pause.saturating_mul(2).min(MOST);
    }
    Err(Failed)
}
