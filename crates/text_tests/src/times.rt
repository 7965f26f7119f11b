//! Which texts are read as plain times, by values from outside.
use mos_fields::{MosTime, Text, Zone};
use mos_times::plain_time;
use std::test::Fail;

fn read(rt: &impl AllocGlobal, text: &str) -> Result<Option<MosTime>, Fail> {
    let chars = text.chars().collect::<Vec<char>>(rt.alloc())?;
    Ok(plain_time(&Text::try_new(rt.alloc(), &chars)?))
}

#[test]
fn plain_times_are_read(rt: HostRuntime) -> Result<(), Fail> {
    let time = read(&rt, "2009-04-11T14:22:07Z")?.expect(&rt, "a time");
    assert!(rt; time.year == 2009 && time.month == 4 && time.day == 11);
    assert!(rt; time.hour == 14 && time.minute == 22 && time.second == 7);
    assert!(rt; time.millis == None && time.zone == Zone::Z);
    Ok(())
}

/// Texts, and whether they are plain times.
const TEXTS: &str = "\
2008-02-29T14:22:07Z|time
2009-02-29T14:22:07Z|no
2009-13-01T14:22:07Z|no
2009-04-11T24:00:00Z|no
2009-04-11T23:60:00Z|no
2009-04-11T23:59:60Z|no
2009-04-11T14:22:07z|no
2009-04-11T14:22:07|no
2009-04-11T14:22:07Z |no
2009-04-11 14:22:07Z|no
2009-04-11T14:22:0\u{0667}Z|no
2009-04-11T14:22:07\u{FF3A}|no
2009-04-11T14:22:\u{10000}Z|no
0000-02-29T00:00:00Z|time
9999-12-31T23:59:59Z|time";

#[test]
fn days_and_times_of_day_exist_and_other_forms_are_left_to_others(
    rt: HostRuntime,
) -> Result<(), Fail> {
    let mut rows = 0u64;
    for row in TEXTS.lines() {
        if let Some((text, word)) = row.split_once('|') {
            assert_eq!(rt; read(&rt, text)?.is_some(), word == "time", "{row}");
            rows = rows.saturating_add(1);
        }
    }
    assert_eq!(rt; rows, 15);
    Ok(())
}
