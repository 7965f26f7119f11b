//! The bytes of connections.
use mos_fields::NoMemory;
use std::alloc::Global;

/// What stands before the mosID of a heartbeat.
const BEFORE: &str = "<mos><mosID>";

/// What stands behind it. A heartbeat of a device whose mosID is a letter has 98 code units.
const BEHIND: &str =
    "</mosID><ncsID>n</ncsID><heartbeat><time>2000-01-01T00:00:00</time></heartbeat></mos>";

/// A message of `b` that isn't whole.
const CUT: &str = "<mos><mosID>b</mosID><ncsID>n</ncsID><heartbeat>";

/// A message of `b` without its ncsID, which is refused.
const REFUSED: &str = "<mos><mosID>b</mosID></mos>";

// Two bytes for each character.
fn push_wide(bytes: &mut Vec<u8>, text: &str) -> Result<(), NoMemory> {
    for byte in text.as_bytes() {
        bytes.extend_from_slice(&[0, *byte])?;
    }
    Ok(())
}

fn push_heartbeat(bytes: &mut Vec<u8>, letter: u8) -> Result<(), NoMemory> {
    push_wide(bytes, BEFORE)?;
    bytes.extend_from_slice(&[0, letter])?;
    push_wide(bytes, BEHIND)
}

/// The bytes of a connection: for each letter a heartbeat of the device of this name, for `(` a message of `b` that is cut
/// off, for `!` one that is refused, for `_` white space, and for `?` half of a code unit.
pub fn bytes_of(alloc: Global, letters: &str) -> Result<Vec<u8>, NoMemory> {
    let mut bytes = Vec::new(alloc);
    for letter in letters.as_bytes() {
        match *letter {
            b'(' => push_wide(&mut bytes, CUT)?,
            b'!' => push_wide(&mut bytes, REFUSED)?,
            b'_' => push_wide(&mut bytes, " \r\n")?,
            b'?' => bytes.push(0)?,
            letter => push_heartbeat(&mut bytes, letter)?,
        }
    }
    Ok(bytes)
}

/// A list of pieces of one size, more than any connection here has.
pub fn pieces_of(alloc: Global, size: usize) -> Result<Vec<usize>, NoMemory> {
    let mut pieces = Vec::new(alloc);
    for _ in 0..1_000u32 {
        pieces.push(size)?;
    }
    Ok(pieces)
}
