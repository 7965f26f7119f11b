//! A file of three records, cut anywhere, and with each byte turned.
use crate::keepers::opens;
use crate::records::{LETTER, RECORD, file, front};
use mos_fields::FieldFault;
use std::alloc::Global;
use std::rt::HostRuntime;
use std::test::Fail;

const NAMES: [&str; 3] = ["R", "S", "T"];

const LETTERS: [char; 3] = ['R', 'S', 'T'];

// Whether a disk of these bytes is opened with the first so many entries, and leaves their records and a byte 0.
fn opens_with(alloc: Global, bytes: &[u8], count: usize) -> Result<bool, FieldFault> {
    let whole = count.min(3);
    let left = file(alloc, &NAMES[..whole], 0)?;
    opens(alloc, bytes, &LETTERS[..whole], &left)
}

#[test]
fn of_a_file_that_is_cut_the_whole_records_with_a_byte_behind_them_are_left(
    rt: HostRuntime,
) -> Result<(), Fail> {
    let alloc = rt.alloc();
    let bytes = file(alloc, &NAMES, 0)?;
    assert_eq!(rt; bytes.len(), 520);
    for count in 0..521usize {
        let whole = count.saturating_sub(1) / RECORD;
        assert!(rt; opens_with(alloc, front(&bytes, count), whole)?, "{count}");
    }
    Ok(())
}

// The file with the byte at this place turned.
fn turned(alloc: Global, at: usize, by: u8) -> Result<Vec<u8>, FieldFault> {
    let mut bytes = file(alloc, &NAMES, 0)?;
    if let Some(byte) = bytes.get_mut(at) {
        *byte ^= by;
    }
    Ok(bytes)
}

// Whether a byte of a letter is at this place. Turned, it makes another letter.
fn is_letter(at: usize) -> bool {
    at % RECORD == LETTER || at % RECORD == LETTER + 1
}

#[test]
fn a_byte_that_is_turned_ends_the_file_at_its_record(rt: HostRuntime) -> Result<(), Fail> {
    let alloc = rt.alloc();
    for at in 0..520usize {
        for by in [1, 128, 255] {
            if !is_letter(at) {
                let bytes = turned(alloc, at, by)?;
                assert!(rt; opens_with(alloc, &bytes, at / RECORD)?, "{at} by {by}");
            }
        }
    }
    Ok(())
}

#[test]
fn a_letter_that_is_turned_is_another_order(rt: HostRuntime) -> Result<(), Fail> {
    let alloc = rt.alloc();
    let bytes = turned(alloc, RECORD + LETTER + 1, 2)?;
    let left = file(alloc, &["R", "Q", "T"], 0)?;
    assert!(rt; opens(alloc, &bytes, &['R', 'Q', 'T'], &left)?);
    Ok(())
}
