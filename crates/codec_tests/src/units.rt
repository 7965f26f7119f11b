//! Texts as code units and as bytes.
use mos_fields::NoMemory;
use std::alloc::Global;

/// The code units of an ASCII text.
pub fn units_of(alloc: Global, text: &str) -> Result<Vec<u16>, NoMemory> {
    let mut units = Vec::new(alloc);
    for byte in text.as_bytes() {
        units.push(u16::from(*byte))?;
    }
    Ok(units)
}

/// The bytes of an ASCII text, two for each character, the high one first.
pub fn bytes_of(alloc: Global, text: &str) -> Result<Vec<u8>, NoMemory> {
    let mut bytes = Vec::new(alloc);
    for byte in text.as_bytes() {
        bytes.push(0)?;
        bytes.push(*byte)?;
    }
    Ok(bytes)
}

/// So many of the bytes, or all of them.
pub fn front(bytes: &[u8], count: usize) -> &[u8] {
    &bytes[..count.min(bytes.len())]
}
