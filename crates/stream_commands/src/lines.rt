//! The lines that are written.
ghost use Rattle.std.specs.Prelude.{◌≡◌, ◌++◌, OnOk, IfOk, string_bytes, drop};
ghost use Rattle.mos_events.specs.EventView.{element_text, events_of};
ghost use Rattle.mos_decoder.specs.Bytes.{found_of};
ghost use Rattle.stream_commands.specs.Lines.{behind_text as behind_text_of, count_line as count_line_of, element_name, identifier, is_identifier as is_identifier_of, message_line, message_part as message_part_of, printed_text, shown_identifier, shown_line as shown_line_of, text_in_front};

use crate::texts::{push_identifier, push_raw_name};
use line_texts::{push_number, push_text, push_word};
use mos_events::{ElementName, Event};
use mos_fields::{Field, NoMemory};
use mos_reader::Found;
use std::alloc::Global;

/// Appends the text that stands in front.
fn push_text_in_front(alloc: Global, out: &mut String, events: &[Event]) -> Result<(), NoMemory>
    ensures { OnOk result (string_bytes out.new ≡ string_bytes out.old ++ printed_text (text_in_front (events_of events.now))) }
{
    match events {
        [Event::Leaf { text, .. }, ..] => push_text(alloc, out, text),
        _ => Ok(()),
    }
}

/// The events behind so many.
fn behind(events: &[Event], count: usize) -> &[Event]
    ensures { events_of result.now ≡ drop count (events_of events.now) }
{
    if count <= events.len() {
        &events[count..]
    } else {
        &[]
    }
}

/// The events behind a text that stands in front.
fn behind_text(events: &[Event]) -> &[Event]
    ensures { events_of result.now ≡ behind_text_of (events_of events.now) }
{
    match events {
        [Event::Leaf { .. }, more @ ..] => more,
        _ => events,
    }
}

/// The message's element and what follows it.
fn message_part(events: &[Event]) -> &[Event]
    ensures { events_of result.now ≡ message_part_of (events_of events.now) }
{
    behind_text(behind(events, 3))
}

/// Appends the name of the element that begins in front.
fn push_element_name(alloc: Global, out: &mut String, events: &[Event]) -> Result<(), NoMemory>
    ensures { OnOk result (string_bytes out.new ≡ string_bytes out.old ++ element_name (events_of events.now)) }
{
    match events {
        [Event::Opens { name, .. }, ..] => push_word(out, name.name()),
        [Event::Raw { text, .. }, ..] => push_raw_name(alloc, out, text),
        _ => Ok(()),
    }
}

/// Appends the roID or objID that the element in front begins with.
fn push_identifier_in_front(
    alloc: Global,
    out: &mut String,
    events: &[Event],
) -> Result<(), NoMemory>
    ensures { OnOk result (string_bytes out.new ≡ string_bytes out.old ++ shown_identifier (identifier (events_of events.now))) }
{
    match events {
        [Event::Opens { .. }, Event::Leaf { name, text, .. }, ..] => {
            if is_identifier(*name) {
                push_identifier(alloc, out, text)
            } else {
                push_word(out, "-")
            }
        }
        _ => push_word(out, "-"),
    }
}

/// Whether the element is a roID or an objID.
fn is_identifier(name: ElementName) -> bool
    ensures { result ≡ is_identifier_of (element_text name) }
{
    name.name() == Field::RoID.name() || name.name() == Field::ObjID.name()
}

/// Appends what of a message stands in its line behind the place.
fn push_message(alloc: Global, out: &mut String, events: &[Event]) -> Result<(), NoMemory>
    ensures { OnOk result (string_bytes out.new ≡ string_bytes out.old ++ message_line (events_of events.now)) }
{
    let message = message_part(events);
    push_word(out, " ")?;
    push_element_name(alloc, out, message)?;
    push_word(out, " ")?;
    push_text_in_front(alloc, out, behind(events, 1))?;
    push_word(out, " ")?;
    push_text_in_front(alloc, out, behind(events, 2))?;
    push_word(out, " ")?;
    push_identifier_in_front(alloc, out, message)?;
    push_word(out, "\n")?;
    Ok(())
}

/// The line of a message: the code unit that its `<mos` begins with, its name, mosID, ncsID, and its roID or objID.
pub fn shown_line(alloc: Global, found: Found) -> Result<String, NoMemory>
    ensures { IfOk result (λ line. string_bytes line ≡ shown_line_of (found_of found)) }
{
    let mut line = String::new(alloc);
    push_number(alloc, &mut line, found.began as u64)?;
    let events = found.value.into_vec();
    push_message(alloc, &mut line, &events)?;
    Ok(line)
}

/// The line of so many messages and code units.
pub fn count_line(alloc: Global, messages: usize, units: usize) -> Result<String, NoMemory>
    ensures { IfOk result (λ line. string_bytes line ≡ count_line_of messages units) }
{
    let mut line = String::new(alloc);
    push_number(alloc, &mut line, messages as u64)?;
    push_word(&mut line, " messages, ")?;
    push_number(alloc, &mut line, units as u64)?;
    push_word(&mut line, " units\n")?;
    Ok(line)
}
