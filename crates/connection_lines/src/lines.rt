//! The lines.
ghost use Rattle.std.specs.Prelude.{◌≡◌, IfOk, string_bytes};
ghost use Rattle.connection_lines.specs.Lines.{accepted_line as accepted_line_of, dialed_line as dialed_line_of, ended_line as ended_line_of, failed_line as failed_line_of, hint_line as hint_line_of, known_line as known_line_of, quiet_line as quiet_line_of, silent_line as silent_line_of, stranger_line as stranger_line_of};

use crate::parts::{push_connection, push_device, push_end, push_place, push_side};
use line_texts::{push_number, push_word};
use mos_fields::{NoMemory, Text};
use port_events::Side;
use port_session::End;
use std::alloc::Global;

/// The line of a connection of this number that a peer opened at this port. Which device it belongs to isn't known yet.
/// The only error is that memory runs out, here and in the other lines.
pub fn accepted_line(alloc: Global, number: u64, side: Side, peer: &str) -> Result<String, NoMemory>
    ensures { IfOk result (λ line. string_bytes line ≡ accepted_line_of number side peer.now) }
{
    let mut line = String::new(alloc);
    let nobody = Text::new(alloc);
    push_connection(alloc, &mut line, number, side, &nobody)?;
    push_word(&mut line, " from ")?;
    push_word(&mut line, peer)?;
    push_word(&mut line, "\n")?;
    Ok(line)
}

/// The line of a connection of this number that this end opened, for the device of this name, to the machine and TCP port.
pub fn dialed_line(
    alloc: Global,
    number: u64,
    side: Side,
    device: &Text,
    host: &Text,
    port: u16,
) -> Result<String, NoMemory>
    ensures { IfOk result (λ line. string_bytes line ≡ dialed_line_of number side device.now host.now port) }
{
    let mut line = String::new(alloc);
    push_connection(alloc, &mut line, number, side, device)?;
    push_word(&mut line, " to ")?;
    push_place(alloc, &mut line, host, port)?;
    push_word(&mut line, "\n")?;
    Ok(line)
}

/// The line of a connection that ended, and why. An empty name of the device is left out.
pub fn ended_line(
    alloc: Global,
    number: u64,
    side: Side,
    device: &Text,
    end: End,
) -> Result<String, NoMemory>
    ensures { IfOk result (λ line. string_bytes line ≡ ended_line_of number side device.now end) }
{
    let mut line = String::new(alloc);
    push_connection(alloc, &mut line, number, side, device)?;
    push_word(&mut line, " ended: ")?;
    push_end(alloc, &mut line, end)?;
    Ok(line)
}

/// The line of a connection that couldn't be opened, and the word of the cause.
pub fn failed_line(
    alloc: Global,
    side: Side,
    device: &Text,
    host: &Text,
    port: u16,
    cause: &str,
) -> Result<String, NoMemory>
    ensures { IfOk result (λ line. string_bytes line ≡ failed_line_of side device.now host.now port cause.now) }
{
    let mut line = String::new(alloc);
    push_word(&mut line, "dial ")?;
    push_side(&mut line, side)?;
    push_device(alloc, &mut line, device)?;
    push_word(&mut line, " to ")?;
    push_place(alloc, &mut line, host, port)?;
    push_word(&mut line, " failed: ")?;
    push_word(&mut line, cause)?;
    push_word(&mut line, "\n")?;
    Ok(line)
}

/// The line of a device that didn't answer for so many seconds.
pub fn silent_line(
    alloc: Global,
    side: Side,
    device: &Text,
    seconds: u64,
) -> Result<String, NoMemory>
    ensures { IfOk result (λ line. string_bytes line ≡ silent_line_of side device.now seconds) }
{
    let mut line = String::new(alloc);
    push_side(&mut line, side)?;
    push_device(alloc, &mut line, device)?;
    push_word(&mut line, " hasn't answered for ")?;
    push_number(alloc, &mut line, seconds)?;
    push_word(&mut line, " s\n")?;
    Ok(line)
}

/// The line of a connection that a peer opened, once it is known that it belongs to this device.
pub fn known_line(alloc: Global, number: u64, side: Side, device: &Text) -> Result<String, NoMemory>
    ensures { IfOk result (λ line. string_bytes line ≡ known_line_of number side device.now) }
{
    let mut line = String::new(alloc);
    let nobody = Text::new(alloc);
    push_connection(alloc, &mut line, number, side, &nobody)?;
    push_word(&mut line, " is")?;
    push_device(alloc, &mut line, device)?;
    push_word(&mut line, "\n")?;
    Ok(line)
}

/// The line of a connection that a peer opened who says that it belongs to this device, which isn't one of the settings.
pub fn stranger_line(
    alloc: Global,
    number: u64,
    side: Side,
    device: &Text,
) -> Result<String, NoMemory>
    ensures { IfOk result (λ line. string_bytes line ≡ stranger_line_of number side device.now) }
{
    let mut line = String::new(alloc);
    let nobody = Text::new(alloc);
    push_connection(alloc, &mut line, number, side, &nobody)?;
    push_word(&mut line, " is")?;
    push_device(alloc, &mut line, device)?;
    push_word(&mut line, ", which the settings don't have\n")?;
    Ok(line)
}

/// The line of a connection on which nothing came for so many seconds.
pub fn quiet_line(alloc: Global, number: u64, side: Side, seconds: u64) -> Result<String, NoMemory>
    ensures { IfOk result (λ line. string_bytes line ≡ quiet_line_of number side seconds) }
{
    let mut line = String::new(alloc);
    let nobody = Text::new(alloc);
    push_connection(alloc, &mut line, number, side, &nobody)?;
    push_word(&mut line, " sent nothing for ")?;
    push_number(alloc, &mut line, seconds)?;
    push_word(&mut line, " s\n")?;
    Ok(line)
}

/// The line of a connection whose first bytes are no message, with what they look like.
pub fn hint_line(alloc: Global, number: u64, side: Side, hint: &str) -> Result<String, NoMemory>
    ensures { IfOk result (λ line. string_bytes line ≡ hint_line_of number side hint.now) }
{
    let mut line = String::new(alloc);
    let nobody = Text::new(alloc);
    push_connection(alloc, &mut line, number, side, &nobody)?;
    push_word(&mut line, ": ")?;
    push_word(&mut line, hint)?;
    push_word(&mut line, "\n")?;
    Ok(line)
}
