//! What stands in front of a line.
ghost use Rattle.std.specs.Prelude.{◌≡◌, ◌++◌, IfOk, OnOk, string_bytes};
ghost use Rattle.mos_fields.specs.Values.{time_text};
ghost use Rattle.stamped_lines.specs.Stamps.{mark_text, said_text, stamp_text};

use line_texts::{push_chars, push_word};
use mos_fields::{MosTime, NoMemory};
use std::alloc::Global;

// Appends the mark of a line that warns.
fn push_mark(out: &mut String, warns: bool) -> Result<(), NoMemory>
    ensures { OnOk result (string_bytes out.new ≡ string_bytes out.old ++ mark_text warns) }
{
    if warns {
        return push_word(out, "<4>");
    }
    Ok(())
}

// The characters of a time.
fn time_chars(alloc: Global, time: &MosTime) -> Result<Vec<char>, NoMemory>
    ensures { IfOk result (λ chars. chars.items ≡ time_text time.now) }
{
    let mut chars = Vec::new(alloc);
    time.push_to(&mut chars)?;
    Ok(chars)
}

// Appends a time and a space, where it is known.
fn push_stamp(alloc: Global, out: &mut String, now: Option<MosTime>) -> Result<(), NoMemory>
    ensures { OnOk result (string_bytes out.new ≡ string_bytes out.old ++ stamp_text now) }
{
    match now {
        None => Ok(()),
        Some(time) => {
            let chars = time_chars(alloc, &time)?;
            push_chars(out, &chars)?;
            push_word(out, " ")
        }
    }
}

/// A line as it is said at this time. The only error is that memory runs out.
pub fn stamped(
    alloc: Global,
    warns: bool,
    now: Option<MosTime>,
    line: &str,
) -> Result<String, NoMemory>
    ensures { IfOk result (λ whole. string_bytes whole ≡ said_text warns now line.now) }
{
    let mut whole = String::new(alloc);
    push_mark(&mut whole, warns)?;
    push_stamp(alloc, &mut whole, now)?;
    push_word(&mut whole, line)?;
    Ok(whole)
}
