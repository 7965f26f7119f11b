//! The time that the system tells.
use crate::moment::time_of;
use mos_fields::MosTime;
use std::time::{Clock, SystemTime, UNIX_EPOCH};

/// The system's time in UTC, in whole seconds. It isn't observable. None where it can't be read, or isn't in the years 1970 to
/// 9999.
pub fn moment_now<R: Clock>(rt: &R) -> Option<MosTime> {
    let Ok(now) = SystemTime::now(rt) else {
        return None;
    };
    match now.duration_since(UNIX_EPOCH) {
        Ok(passed) => time_of(passed.as_secs()),
        Err(_) => None,
    }
}
