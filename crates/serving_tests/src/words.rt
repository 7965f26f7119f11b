//! Texts and ends.
use mos_fields::{FieldFault, Id, MosTime, NoMemory, Text, Zone};
use port_events::Side;
use port_session::{End, Port};
use std::alloc::Global;

/// The time of all tests.
pub fn time() -> MosTime {
    MosTime {
        year: 2000,
        month: 1,
        day: 1,
        hour: 0,
        minute: 0,
        second: 0,
        millis: None,
        zone: Zone::None,
    }
}

fn id(alloc: Global, text: &str) -> Result<Id, FieldFault> {
    let chars = text.chars().collect::<Vec<char>>(alloc)?;
    Id::try_new(alloc, &chars)
}

pub fn text(alloc: Global, text: &str) -> Result<Text, FieldFault> {
    let chars = text.chars().collect::<Vec<char>>(alloc)?;
    Text::try_new(alloc, &chars)
}

/// A port of the server ncs1, the device of which is dev1.
pub fn port(alloc: Global, side: Side, link: u64) -> Result<Port, FieldFault> {
    let mos = id(alloc, "dev1")?;
    let ncs = id(alloc, "ncs1")?;
    Ok(Port {
        side,
        device: None,
        link,
        mos,
        ncs,
    })
}

/// Two bytes for each character.
pub fn wide(alloc: Global, text: &str) -> Result<Vec<u8>, NoMemory> {
    let mut bytes = Vec::new(alloc);
    for byte in text.as_bytes() {
        bytes.push(0)?;
        bytes.push(*byte)?;
    }
    Ok(bytes)
}

/// The name of the end.
pub fn end_word(end: End) -> &'static str {
    match end {
        End::Closed => "Closed",
        End::Truncated { bytes: _ } => "Truncated",
        End::BadMessage { place: _, kind: _ } => "BadMessage",
        End::ReadFault => "ReadFault",
        End::WriteFault => "WriteFault",
        End::Budget => "Budget",
        End::Stale => "Stale",
        End::Unasked => "Unasked",
        End::Stopped => "Stopped",
        End::NoMemory => "NoMemory",
    }
}

/// The number of bytes or code units that the end tells, or 0.
pub fn end_number(end: End) -> u64 {
    match end {
        End::Truncated { bytes } => bytes,
        End::BadMessage { place, kind: _ } => place,
        _ => 0,
    }
}
