//! The parts of a line.
ghost use Rattle.std.specs.Prelude.{◌≡◌, ◌++◌, IfOk, OnOk, string_bytes};
ghost use Rattle.std.specs.Fmt.{decimal};
ghost use Rattle.port_session.specs.declared.end.End.TheVariants.{Truncated};
ghost use Rattle.connection_lines.specs.Lines.{at_text, connection_text, device_text, end_text, numbered_text, place_text, side_text};

use line_texts::{push_number, push_text, push_word, refused_line};
use mos_fields::{NoMemory, Text};
use port_events::Side;
use port_session::End;
use std::alloc::Global;

fn side_word(side: Side) -> &'static str
    ensures { result.now ≡ side_text side }
{
    match side {
        Side::Upper => "upper",
        Side::Lower => "lower",
        Side::Editor => "editor",
    }
}

/// Appends a port's word.
pub(crate) fn push_side(out: &mut String, side: Side) -> Result<(), NoMemory>
    ensures { OnOk result (string_bytes out.new ≡ string_bytes out.old ++ side_text side) }
{
    push_word(out, side_word(side))
}

/// Appends a device's name with a space before it, or nothing where it is empty.
pub(crate) fn push_device(alloc: Global, out: &mut String, device: &Text) -> Result<(), NoMemory>
    ensures { OnOk result (string_bytes out.new ≡ string_bytes out.old ++ device_text device.now) }
{
    if device.is_empty() {
        return Ok(());
    }
    push_word(out, " ")?;
    push_text(alloc, out, device)
}

/// Appends a machine and a TCP port.
pub(crate) fn push_place(
    alloc: Global,
    out: &mut String,
    host: &Text,
    port: u16,
) -> Result<(), NoMemory>
    ensures { OnOk result (string_bytes out.new ≡ string_bytes out.old ++ place_text host.now port) }
{
    push_text(alloc, out, host)?;
    push_word(out, ":")?;
    push_number(alloc, out, port.into())
}

// Appends a connection, by its number.
fn push_numbered(alloc: Global, out: &mut String, number: u64) -> Result<(), NoMemory>
    ensures { OnOk result (string_bytes out.new ≡ string_bytes out.old ++ numbered_text number) }
{
    push_word(out, "connection ")?;
    push_number(alloc, out, number)?;
    Ok(())
}

// Appends a port and a device, with a space before each.
fn push_at(alloc: Global, out: &mut String, side: Side, device: &Text) -> Result<(), NoMemory>
    ensures { OnOk result (string_bytes out.new ≡ string_bytes out.old ++ at_text side device.now) }
{
    push_word(out, " ")?;
    push_side(out, side)?;
    push_device(alloc, out, device)
}

/// Appends a connection, by its number, its port and its device.
pub(crate) fn push_connection(
    alloc: Global,
    out: &mut String,
    number: u64,
    side: Side,
    device: &Text,
) -> Result<(), NoMemory>
    ensures { OnOk result (string_bytes out.new ≡ string_bytes out.old ++ connection_text number side device.now) }
{
    push_numbered(alloc, out, number)?;
    push_at(alloc, out, side, device)
}

// Appends the end of a line on a stream that ended inside a message.
fn push_truncated(alloc: Global, out: &mut String, bytes: u64) -> Result<(), NoMemory>
    ensures { OnOk result (string_bytes out.new ≡ string_bytes out.old ++ end_text (Truncated bytes)) }
{
    push_word(out, "Truncated ")?;
    push_number(alloc, out, bytes)?;
    push_word(out, "\n")
}

/// Appends why a connection ended, and the end of the line.
pub(crate) fn push_end(alloc: Global, out: &mut String, end: End) -> Result<(), NoMemory>
    ensures { OnOk result (string_bytes out.new ≡ string_bytes out.old ++ end_text end) }
{
    match end {
        End::Closed => push_word(out, "Closed\n"),
        End::Truncated { bytes } => push_truncated(alloc, out, bytes),
        End::BadMessage { place, kind } => {
            let refused = refused_line(alloc, place as usize, kind)?;
            push_word(out, refused.as_str())
        }
        End::ReadFault => push_word(out, "ReadFault\n"),
        End::WriteFault => push_word(out, "WriteFault\n"),
        End::Budget => push_word(out, "Budget\n"),
        End::Stale => push_word(out, "Stale\n"),
        End::Unasked => push_word(out, "Unasked\n"),
        End::Stopped => push_word(out, "Stopped\n"),
        End::NoMemory => push_word(out, "NoMemory\n"),
    }
}
