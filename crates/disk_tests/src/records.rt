//! Files of records, written by hand.
use mos_fields::NoMemory;
use std::alloc::Global;

/// How many bytes the record of such an entry has.
pub const RECORD: usize = 173;

/// The place of the first byte of the order's letter in such a record.
pub const LETTER: usize = 123;

// Adds a text in UTF-16, high byte first.
fn push_text(bytes: &mut Vec<u8>, text: &str) -> Result<(), NoMemory> {
    for letter in text.as_bytes() {
        bytes.push(0)?;
        bytes.push(*letter)?;
    }
    Ok(())
}

/// Adds the bytes of a journal's entry of the roDelete of the order that is named so.
pub fn push_message(bytes: &mut Vec<u8>, name: &str) -> Result<(), NoMemory> {
    push_text(
        bytes,
        "<mos><mosID>log</mosID><ncsID>log</ncsID><roDelete><roID>",
    )?;
    push_text(bytes, name)?;
    push_text(bytes, "</roID></roDelete></mos>")
}

/// Adds the record of the roDelete of the order that is named by one letter.
pub fn push_record(bytes: &mut Vec<u8>, name: &str) -> Result<(), NoMemory> {
    bytes.extend_from_slice(&[1, 0, 0, 0, 0, 0, 0, 0, 164])?;
    push_message(bytes, name)
}

/// The records of the roDeletes of the orders that are named by these letters, one each, and a last byte.
pub fn file(alloc: Global, names: &[&str], last: u8) -> Result<Vec<u8>, NoMemory> {
    let mut bytes = Vec::new(alloc);
    for name in names {
        push_record(&mut bytes, name)?;
    }
    bytes.push(last)?;
    Ok(bytes)
}

/// The first so many bytes.
pub fn front(bytes: &[u8], count: usize) -> &[u8] {
    match bytes.get(..count) {
        Some(front) => front,
        None => bytes,
    }
}

/// The bytes behind the first so many.
pub fn behind(bytes: &[u8], count: usize) -> &[u8] {
    match bytes.get(count..) {
        Some(rest) => rest,
        None => &[],
    }
}
