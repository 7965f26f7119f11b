//! Texts of connections.
use mos_fields::NoMemory;
use port_session::End;
use std::alloc::Global;

/// What stands before the mosID of a heartbeat.
const BEFORE: &str = "<mos><mosID>";

/// What stands behind it. Where the mosID is a letter, the heartbeat has 122 code units.
const BEHIND: &str =
    "</mosID><ncsID>n</ncsID><messageID>7</messageID><heartbeat><time>2000-01-01T00:00:00</time></heartbeat></mos>";

/// What stands behind the mosID of an answer that the message was for another end.
const NOT_FOR_ME: &str =
    "</mosID><ncsID>n</ncsID><messageID>7</messageID><roAck><roID></roID><roStatus>NOT FOR ME</roStatus></roAck></mos>";

/// A message that isn't whole, of 48 code units.
const CUT: &str = "<mos><mosID>a</mosID><ncsID>n</ncsID><heartbeat>";

/// A message without its ncsID, which is refused at its end tag, behind 21 code units.
const REFUSED: &str = "<mos><mosID>a</mosID></mos>";

/// A message without anything in it, which is refused at its end tag, behind 5 code units.
const EMPTY: &str = "<mos></mos>";

/// A text where none may stand, which shows at the next tag.
const TEXT: &str = "x<";

fn push_heartbeat(out: &mut Vec<u8>, letter: u8) -> Result<(), NoMemory> {
    out.extend_from_slice(BEFORE.as_bytes())?;
    out.push(letter)?;
    out.extend_from_slice(BEHIND.as_bytes())?;
    Ok(())
}

fn push_refusal(out: &mut Vec<u8>, letter: u8) -> Result<(), NoMemory> {
    out.extend_from_slice(BEFORE.as_bytes())?;
    out.push(letter)?;
    out.extend_from_slice(NOT_FOR_ME.as_bytes())?;
    Ok(())
}

fn push_text(out: &mut Vec<u8>, text: &str) -> Result<(), NoMemory> {
    out.extend_from_slice(text.as_bytes())?;
    Ok(())
}

/// A text: for each small letter a heartbeat of this mosID, for each capital letter the answer that a message of the mosID with
/// the small one was for another end, and for `(`, `!`, `0` and `#` the texts above.
pub fn text_of(alloc: Global, letters: &[u8]) -> Result<Vec<u8>, NoMemory> {
    let mut out = Vec::new(alloc);
    for letter in letters {
        match *letter {
            b'(' => push_text(&mut out, CUT)?,
            b'!' => push_text(&mut out, REFUSED)?,
            b'0' => push_text(&mut out, EMPTY)?,
            b'#' => push_text(&mut out, TEXT)?,
            letter if letter.is_ascii_uppercase() => {
                push_refusal(&mut out, letter.to_ascii_lowercase())?;
            }
            letter => push_heartbeat(&mut out, letter)?,
        }
    }
    Ok(out)
}

/// Two bytes for each character.
pub fn wide(alloc: Global, text: &[u8]) -> Result<Vec<u8>, NoMemory> {
    let mut bytes = Vec::new(alloc);
    for byte in text {
        bytes.extend_from_slice(&[0, *byte])?;
    }
    Ok(bytes)
}

/// The bytes of a connection with this text.
pub fn bytes_of(alloc: Global, letters: &[u8]) -> Result<Vec<u8>, NoMemory> {
    let text = text_of(alloc, letters)?;
    wide(alloc, text.as_slice())
}

/// The name of the end.
pub fn end_word(end: End) -> &'static str {
    match end {
        End::Closed => "Closed",
        End::Truncated { bytes: _ } => "Truncated",
        End::BadMessage { place: _, kind: _ } => "BadMessage",
        End::ReadFault => "ReadFault",
        End::WriteFault => "WriteFault",
        End::Budget => "Budget",
        End::Stale => "Stale",
        End::Unasked => "Unasked",
        End::Stopped => "Stopped",
        End::NoMemory => "NoMemory",
    }
}

/// The number of bytes or code units that the end tells, or 0.
pub fn end_number(end: End) -> u64 {
    match end {
        End::Truncated { bytes } => bytes,
        End::BadMessage { place, kind: _ } => place,
        _ => 0,
    }
}
