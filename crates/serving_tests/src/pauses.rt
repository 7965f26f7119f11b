//! Pauses that last, and end early.
use mos_io::{Pace, Pacer};
use port_tcp::{Common, SleepPacer};
use std::sync::Arc;
use std::sync::atomic::{AtomicBool, Ordering};
use std::test::Fail;
use std::time::{Duration, Instant};

#[test]
fn a_heartbeat_is_asked_for_where_none_was_for_long(rt: HostRuntime) -> Result<(), Fail> {
    let alloc = rt.alloc();
    let stop = Arc::new(alloc, AtomicBool::new(false))?;
    let theirs = Arc::try_clone(&stop)?;
    let common = Arc::new(alloc, Common::new(1))?;
    let length = Duration::from_millis(1);
    let every = Duration::from_millis(20);
    let mut pacer = SleepPacer::new(rt, common, length, every, Some(theirs));
    assert_eq!(rt; pacer.pause(), Pace::Again);
    let mut beats = 0u32;
    for _ in 0..1000u32 {
        if pacer.pause() == Pace::Beat {
            beats = beats.saturating_add(1);
        }
    }
    assert!(rt; beats >= 1 && beats < 999);
    stop.store(true, Ordering::SeqCst);
    assert_eq!(rt; pacer.pause(), Pace::Stop);
    let mut twin = pacer.twin()?;
    assert_eq!(rt; twin.pause(), Pace::Stop);
    Ok(())
}

#[test]
fn a_pause_ends_where_something_may_be_due(rt: HostRuntime) -> Result<(), Fail> {
    let alloc = rt.alloc();
    let common = Arc::new(alloc, Common::new(1))?;
    let theirs = Arc::try_clone(&common)?;
    let hour = Duration::from_secs(3600);
    let mut pacer = SleepPacer::new(rt, theirs, hour, hour, None);
    let begun = Instant::now(&rt)?;
    common.moved();
    assert_eq!(rt; pacer.pause(), Pace::Again);
    common.changed();
    let mut twin = pacer.twin()?;
    for _ in 0..4u32 {
        if pacer.pause() == Pace::Beat {
            assert!(rt; begun.elapsed(&rt)? < Duration::from_secs(60));
            return Ok(());
        }
    }
    let _ = twin.pause();
    Err(Fail::from("no heartbeat"))
}
