//! A fault, explained.
ghost use Rattle.std.specs.Prelude.{◌≡◌, ◌++◌, IfOk, OnOk, string_bytes};
ghost use Rattle.settings_help.specs.Places.{IsExplained};
ghost use Rattle.settings_help.specs.Lines.{ending, explained, rule_words, twice_words};

use crate::faults::{allowed, push_fault};
use crate::finding::place_of;
use crate::parts::{push_number, push_text, push_word};
use crate::place::{Place, push_place};
use end_settings::SettingsFault;
use mos_fields::{NoMemory, Text};
use std::alloc::Global;

// Appends that a table has the mos_id of an earlier one.
fn push_twice(alloc: Global, out: &mut String, name: &Text, first: u64) -> Result<(), NoMemory>
    ensures { OnOk result (string_bytes out.new ≡ string_bytes out.old ++ twice_words first name.now) }
{
    push_word(out, ": it has the mos_id of table ")?;
    push_number(alloc, out, first)?;
    push_word(out, ", ")?;
    push_text(alloc, out, name)
}

// Appends what is allowed, where a value isn't.
fn push_allowed(out: &mut String, fault: SettingsFault) -> Result<(), NoMemory>
    ensures { OnOk result (string_bytes out.new ≡ string_bytes out.old ++ rule_words fault) }
{
    match fault {
        SettingsFault::BadValue { key } => {
            push_word(out, ": ")?;
            push_word(out, allowed(key))
        }
        SettingsFault::NotToml | SettingsFault::NoMemory | SettingsFault::Missing { key: _ } => {
            Ok(())
        }
    }
}

// Appends what is wrong, or what is allowed.
fn push_ending(
    alloc: Global,
    out: &mut String,
    fault: SettingsFault,
    place: &Place,
) -> Result<(), NoMemory>
    ensures { OnOk result (string_bytes out.new ≡ string_bytes out.old ++ ending fault place.now) }
{
    match place {
        Place::Line { number: _, cause } => {
            push_word(out, ": ")?;
            push_word(out, cause.as_str())
        }
        Place::Twice {
            number: _,
            name,
            first,
        } => push_twice(alloc, out, name, *first),
        Place::Top | Place::Table { number: _, name: _ } => push_allowed(out, fault),
    }
}

/// The line of a fault at this place of a file, without a line feed: the fault's words, the file's name, the place, and what is
/// wrong or allowed there. The only error is that memory runs out.
pub fn explained_line(
    alloc: Global,
    file: &str,
    fault: SettingsFault,
    place: &Place,
) -> Result<String, NoMemory>
    ensures { IfOk result (λ line. string_bytes line ≡ explained file.now fault place.now) }
{
    let mut line = String::new(alloc);
    push_fault(&mut line, fault)?;
    push_word(&mut line, ": ")?;
    push_word(&mut line, file)?;
    push_place(alloc, &mut line, place)?;
    push_ending(alloc, &mut line, fault, place)?;
    Ok(line)
}

/// The line of the fault that reading a file's text gave, without a line feed. The only error is that memory runs out: a
/// program then says the fault's words alone.
pub fn explain(
    alloc: Global,
    file: &str,
    text: &[u8],
    fault: SettingsFault,
) -> Result<String, NoMemory>
    ensures { IfOk result (λ line. IsExplained file.now text.now fault (string_bytes line)) }
{
    let place = place_of(alloc, text, fault)?;
    explained_line(alloc, file, fault, &place)
}
