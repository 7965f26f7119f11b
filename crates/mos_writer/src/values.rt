//! The canonical texts of numbers, times and words.
ghost use Rattle.std.specs.Prelude.{◌≡◌, ◌≤◌, ◌∷◌, ◌++◌, OnOk};
ghost use Rattle.std.specs.Fmt.{decimal};
ghost use Rattle.mos_fields.specs.Values.{air_text, clock_text, day_text, level_text, millis_text, obj_type_text, operation_text, time_text, zone_text};
ghost use Rattle.mos_values.specs.Views.{ack_status_text, answer_text, device_type_text};
ghost use Rattle.mos_writer.specs.Encoded.{in_bytes};

use crate::bytes::push_ascii;
use mos_fields::{Air, Level, MosTime, NoMemory, ObjType, Operation, Zone};
use mos_values::{AckStatus, DeviceType};

/// Appends the decimal digits of a number.
pub fn push_decimal(out: &mut Vec<u8>, n: u32) -> Result<(), NoMemory>
    ensures { OnOk result (out.new.items ≡ out.old.items ++ in_bytes (decimal n)) }
{
    if n < 10 {
        push_ascii(out, &[48 + n as u8])?;
    } else {
        push_decimal(out, n / 10)?;
        push_ascii(out, &[48 + (n % 10) as u8])?;
    }
    Ok(())
}

/// Appends date and time of day.
fn push_day_and_time(
    out: &mut Vec<u8>,
    y: u16,
    m: u8,
    d: u8,
    h: u8,
    min: u8,
    s: u8,
) -> Result<(), NoMemory>
    ensures { OnOk result (out.new.items ≡ out.old.items ++ in_bytes (day_text y m d ++ 84 ∷ clock_text h min s)) }
{
    out.extend_from_slice(&[
        0,
        48 + (y / 1000 % 10) as u8,
        0,
        48 + (y / 100 % 10) as u8,
        0,
        48 + (y / 10 % 10) as u8,
        0,
        48 + (y % 10) as u8,
        0,
        45,
        0,
        48 + m / 10 % 10,
        0,
        48 + m % 10,
        0,
        45,
        0,
        48 + d / 10 % 10,
        0,
        48 + d % 10,
        0,
        84,
        0,
        48 + h / 10 % 10,
        0,
        48 + h % 10,
        0,
        58,
        0,
        48 + min / 10 % 10,
        0,
        48 + min % 10,
        0,
        58,
        0,
        48 + s / 10 % 10,
        0,
        48 + s % 10,
    ])?;
    Ok(())
}

#[tactic(auto, using(crate::proofs::EncodedLemmas::append_none))]
fn push_millis(out: &mut Vec<u8>, millis: Option<u16>) -> Result<(), NoMemory>
    ensures { OnOk result (out.new.items ≡ out.old.items ++ in_bytes (millis_text millis)) }
{
    match millis {
        None => Ok(()),
        Some(n) => push_ascii(
            out,
            &[
                44,
                48 + (n / 100 % 10) as u8,
                48 + (n / 10 % 10) as u8,
                48 + (n % 10) as u8,
            ],
        ),
    }
}

#[tactic(auto, using(crate::proofs::EncodedLemmas::append_none))]
fn push_zone(out: &mut Vec<u8>, zone: Zone) -> Result<(), NoMemory>
    ensures { OnOk result (out.new.items ≡ out.old.items ++ in_bytes (zone_text zone)) }
{
    match zone {
        Zone::None => Ok(()),
        Zone::Z => push_ascii(out, b"Z"),
        Zone::Plus { h, m } => push_ascii(
            out,
            &[
                43,
                48 + h / 10 % 10,
                48 + h % 10,
                58,
                48 + m / 10 % 10,
                48 + m % 10,
            ],
        ),
        Zone::Minus { h, m } => push_ascii(
            out,
            &[
                45,
                48 + h / 10 % 10,
                48 + h % 10,
                58,
                48 + m / 10 % 10,
                48 + m % 10,
            ],
        ),
    }
}

/// Appends a time.
pub fn push_time(out: &mut Vec<u8>, time: &MosTime) -> Result<(), NoMemory>
    ensures { OnOk result (out.new.items ≡ out.old.items ++ in_bytes (time_text time.now)) }
{
    push_day_and_time(
        out,
        time.year,
        time.month,
        time.day,
        time.hour,
        time.minute,
        time.second,
    )?;
    push_millis(out, time.millis)?;
    push_zone(out, time.zone)?;
    Ok(())
}

/// The word of an air status.
pub fn air_word(air: Air) -> &'static str
    ensures { result.now ≡ air_text air }
{
    match air {
        Air::Ready => "READY",
        Air::NotReady => "NOT READY",
    }
}

/// The word of an object's type.
pub fn obj_type_word(obj_type: ObjType) -> &'static str
    ensures { result.now ≡ obj_type_text obj_type }
{
    match obj_type {
        ObjType::Still => "STILL",
        ObjType::Audio => "AUDIO",
        ObjType::Video => "VIDEO",
        ObjType::Other => "OTHER",
    }
}

/// The word of an answer.
pub fn ack_status_word(status: AckStatus) -> &'static str
    ensures { result.now ≡ ack_status_text status }
{
    match status {
        AckStatus::Ack => "ACK",
        AckStatus::Nack => "NACK",
    }
}

/// The word of what a status is of.
pub fn level_word(level: Level) -> &'static str
    ensures { result.now ≡ level_text level }
{
    match level {
        Level::Ro => "RO",
        Level::Story => "STORY",
        Level::Item => "ITEM",
    }
}

/// The word of an operation.
pub fn operation_word(operation: Operation) -> &'static str
    ensures { result.now ≡ operation_text operation }
{
    match operation {
        Operation::Insert => "INSERT",
        Operation::Replace => "REPLACE",
        Operation::Move => "MOVE",
        Operation::Delete => "DELETE",
        Operation::Swap => "SWAP",
    }
}

/// The word of a kind of machine.
pub fn device_type_word(device_type: DeviceType) -> &'static str
    ensures { result.now ≡ device_type_text device_type }
{
    match device_type {
        DeviceType::Ncs => "NCS",
        DeviceType::Mos => "MOS",
    }
}

/// The word of a yes or no.
pub fn answer_word(answer: bool) -> &'static str
    ensures { result.now ≡ answer_text answer }
{
    if answer { "YES" } else { "NO" }
}

/// A digit.
#[tactic(auto, using(std::proofs::lemmas::Fmt::decimal_digit))]
pub fn digit_word(n: u8) -> &'static str
    requires { n ≤ 9 }
    ensures { result.now ≡ decimal n }
{
    match n {
        0 => "0",
        1 => "1",
        2 => "2",
        3 => "3",
        4 => "4",
        5 => "5",
        6 => "6",
        7 => "7",
        8 => "8",
        _ => "9",
    }
}
