//! What an open and an append leave.
use crate::keepers::{append, holds, opened, opens};
use crate::records::{file, push_message, push_record};
use mos_fields::{FieldFault, NoMemory, let_go};
use std::alloc::Global;
use std::rt::HostRuntime;
use std::test::Fail;

#[test]
fn an_empty_disk_gets_a_byte_0(rt: HostRuntime) -> Result<(), Fail> {
    assert!(rt; opens(rt.alloc(), &[], &[], &[0])?);
    Ok(())
}

// Whether an append to an empty disk leaves these bytes and gives this entry.
fn appends(alloc: Global, name: char, bytes: &[u8]) -> Result<bool, FieldFault> {
    let Some(mut keeper) = opened(alloc, &[], &[])? else {
        return Ok(false);
    };
    let kept = append(alloc, &mut keeper, name);
    let held = holds(alloc, &mut keeper, &[name], bytes);
    let_go(keeper);
    Ok(kept? == Ok(()) && held?)
}

#[test]
fn an_append_leaves_a_record_and_a_byte_0(rt: HostRuntime) -> Result<(), Fail> {
    let alloc = rt.alloc();
    let bytes = file(alloc, &["R"], 0)?;
    assert_eq!(rt; bytes.len(), 174);
    assert!(rt; appends(alloc, 'R', &bytes)?);
    Ok(())
}

#[test]
fn what_is_no_record_is_cut_off(rt: HostRuntime) -> Result<(), Fail> {
    let alloc = rt.alloc();
    assert!(rt; opens(alloc, &[1], &[], &[0])?);
    assert!(rt; opens(alloc, &[7], &[], &[0])?);
    let mut bytes = file(alloc, &["R"], 0)?;
    if let Some(byte) = bytes.get_mut(0) {
        *byte = 7;
    }
    assert!(rt; opens(alloc, &bytes, &[], &[0])?);
    Ok(())
}

// A record of so many bytes of length, the message of one order's entry, and a last byte.
fn with_length(alloc: Global, length: u64, last: u8) -> Result<Vec<u8>, NoMemory> {
    let mut bytes = Vec::new(alloc);
    bytes.push(1)?;
    bytes.extend_from_slice(&length.to_be_bytes())?;
    push_message(&mut bytes, "R")?;
    bytes.push(last)?;
    Ok(bytes)
}

#[test]
fn a_length_that_lies_ends_the_file(rt: HostRuntime) -> Result<(), Fail> {
    let alloc = rt.alloc();
    let one = file(alloc, &["R"], 0)?;
    let whole = with_length(alloc, 164, 0)?;
    assert!(rt; opens(alloc, &whole, &['R'], &one)?);
    for length in [
        0,
        1,
        82,
        163,
        165,
        166,
        164 << 8,
        164 << 56,
        (1 << 32) + 164,
        (1 << 63) + 164,
        u64::MAX,
        u64::MAX - 9,
    ] {
        let bytes = with_length(alloc, length, 0)?;
        assert!(rt; opens(alloc, &bytes, &[], &[0])?, "{length}");
    }
    Ok(())
}

// A file of one record, a byte that ends it, and records behind that.
fn with_stale(alloc: Global, last: u8) -> Result<Vec<u8>, NoMemory> {
    let mut bytes = file(alloc, &["R"], last)?;
    push_record(&mut bytes, "S")?;
    push_record(&mut bytes, "T")?;
    bytes.push(0)?;
    Ok(bytes)
}

// Whether stale records behind the end don't come back, neither at an open nor behind an append and another open.
fn stay_gone(alloc: Global, last: u8) -> Result<bool, FieldFault> {
    let bytes = with_stale(alloc, last)?;
    let one = file(alloc, &["R"], 0)?;
    let two = file(alloc, &["R", "Q"], 0)?;
    if !opens(alloc, &bytes, &['R'], &one)? {
        return Ok(false);
    }
    let Some(mut keeper) = opened(alloc, &bytes, &[])? else {
        return Ok(false);
    };
    let kept = append(alloc, &mut keeper, 'Q');
    let held = holds(alloc, &mut keeper, &['R', 'Q'], &two);
    let_go(keeper);
    Ok(kept? == Ok(()) && held? && opens(alloc, &two, &['R', 'Q'], &two)?)
}

#[test]
fn stale_records_behind_the_end_are_cut_off(rt: HostRuntime) -> Result<(), Fail> {
    for last in [0, 2, 7, 255] {
        assert!(rt; stay_gone(rt.alloc(), last)?, "{last}");
    }
    Ok(())
}
