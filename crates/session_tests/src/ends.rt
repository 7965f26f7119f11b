//! Ends as words.
use mos_fields::NoMemory;
use port_session::End;

fn push_number(out: &mut Vec<u8>, word: &[u8], number: u64) -> Result<(), NoMemory> {
    out.extend_from_slice(word)?;
    push_digits(out, number)
}

fn push_digits(out: &mut Vec<u8>, number: u64) -> Result<(), NoMemory> {
    if number < 10 {
        out.push(b'0' + number as u8)?;
    } else {
        push_digits(out, number / 10)?;
        out.push(b'0' + (number % 10) as u8)?;
    }
    Ok(())
}

fn push_word(out: &mut Vec<u8>, word: &[u8]) -> Result<(), NoMemory> {
    out.extend_from_slice(word)?;
    Ok(())
}

/// The name of the end, with its number where it has one.
pub fn push_end(out: &mut Vec<u8>, end: End) -> Result<(), NoMemory> {
    match end {
        End::Closed => push_word(out, b"Closed"),
        End::Truncated { bytes } => push_number(out, b"Truncated ", bytes),
        End::BadMessage { place, kind: _ } => push_number(out, b"BadMessage ", place),
        End::ReadFault => push_word(out, b"ReadFault"),
        End::WriteFault => push_word(out, b"WriteFault"),
        End::Budget => push_word(out, b"Budget"),
        End::Stale => push_word(out, b"Stale"),
        End::Unasked => push_word(out, b"Unasked"),
        End::Stopped => push_word(out, b"Stopped"),
        End::NoMemory => push_word(out, b"NoMemory"),
    }
}
