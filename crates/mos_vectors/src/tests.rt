//! Streams that are too long for a line of `stdin`.
use crate::shown;
use std::alloc::Global;
use std::test::Fail;

/// Whether this is said of so many spaces and this behind them.
fn is_said(alloc: Global, spaces: u32, last: &str, wanted: &str) -> Result<bool, Fail> {
    let mut line = String::new(alloc);
    for _ in 0..spaces {
        line.push(' ')?;
    }
    line.push_str(last)?;
    let text = shown(alloc, line.as_str())?;
    Ok(text.as_str() == wanted)
}

#[test]
fn a_unit_too_many(rt: HostRuntime) -> Result<(), Fail> {
    let alloc = rt.alloc();
    let high = is_said(alloc, 8_388_608, "\\d83d", "REFUSED 8388608 TooLong\n")?;
    assert!(rt; high);
    let low = is_said(alloc, 8_388_608, "\\de00", "REFUSED 8388608 BadUnit\n")?;
    assert!(rt; low);
    let open = is_said(alloc, 8_388_607, "\\d83d", "REFUSED 8388608 End\n")?;
    assert!(rt; open);
    Ok(())
}

#[test]
fn a_pair_that_is_cut_by_the_limit(rt: HostRuntime) -> Result<(), Fail> {
    let cut = is_said(
        rt.alloc(),
        8_388_607,
        "\\d83d\\de00",
        "REFUSED 8388608 TooLong\n",
    )?;
    assert!(rt; cut);
    Ok(())
}
