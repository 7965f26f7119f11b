//! Seconds as times.
ghost use Rattle.std.specs.Prelude.{◌≡◌, ◌/◌, ◌<◌, ◌≤◌, IfNone, IfSome, pos};
ghost use Rattle.std.specs.Int.Signed.{◌≤ℤ◌};
ghost use Rattle.jiff.specs.Words.{epoch_day, IsYmd};
ghost use Rattle.moments.specs.Moments.{IsMoment};

use jiff::ToSpan;
use jiff::civil::{Date, date};
use mos_fields::{MosTime, Zone};

// The seconds of a day.
const DAY: u64 = 86_400;

// As many days, from the first of 1970 on, are before the year 10000.
const DAYS: u64 = 2_932_897;

/// The begin of 1970.
pub fn first_time() -> MosTime
    ensures { IsMoment 0 result }
{
    MosTime {
        year: 1970,
        month: 1,
        day: 1,
        hour: 0,
        minute: 0,
        second: 0,
        millis: None,
        zone: Zone::Z,
    }
}

// The day so many days after the first of 1970, where that is in the years 1970 to 9999.
fn day_of(days: u64) -> Option<Date>
    ensures some { IfSome result (λ d. (epoch_day d ≡ pos days) × (days < 2932897)) }
    ensures none { IfNone result (2932897 ≤ days) }
{
    if days >= DAYS {
        return None;
    }
    match date(1970, 1, 1).checked_add((days as i64).days()) {
        Ok(day) => Some(day),
        Err(_) => None,
    }
}

// The numbers of a day, from the year 0 on.
fn numbers_of(day: Date) -> (u16, u8, u8)
    requires { pos 0 ≤ℤ day.year }
    ensures { IsYmd (pos result.0) (pos result.1) (pos result.2) day }
{
    (day.year() as u16, day.month() as u8, day.day() as u8)
}

// The time on the day of which so many seconds are.
fn time_on(day: Date, seconds: u64) -> MosTime
    requires { epoch_day day ≡ pos (seconds / 86400) }
    ensures { IsMoment seconds result }
{
    let (year, month, number) = numbers_of(day);
    let rest = seconds % DAY;
    let hour = rest / 3600;
    let minute = rest / 60 % 60;
    let second = rest % 60;
    MosTime {
        year,
        month,
        day: number,
        hour: hour as u8,
        minute: minute as u8,
        second: second as u8,
        millis: None,
        zone: Zone::Z,
    }
}

/// The time in UTC so many seconds after the begin of 1970, leap seconds not counted. None exactly past the year 9999.
pub fn time_of(seconds: u64) -> Option<MosTime>
    ensures some { IfSome result (λ t. IsMoment seconds t × (seconds / 86400 < 2932897)) }
    ensures none { IfNone result (2932897 ≤ seconds / 86400) }
{
    match day_of(seconds / DAY) {
        Some(day) => Some(time_on(day, seconds)),
        None => None,
    }
}
