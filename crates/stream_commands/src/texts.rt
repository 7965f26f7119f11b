//! Texts of lines.
ghost use Rattle.std.specs.Prelude.{◌≡◌, ◌++◌, OnOk, string_bytes};
ghost use Rattle.mos_fields.specs.Names.{is_further as is_further_of};
ghost use Rattle.stream_commands.specs.Lines.{name_in_front, raw_name, shown_identifier};

use line_texts::{chars_of, push_text, push_word};
use mos_fields::{NoMemory, Text};
use std::alloc::Global;

/// Appends an ID as it is printed, and `-` for an empty one.
pub fn push_identifier(alloc: Global, out: &mut String, text: &Text) -> Result<(), NoMemory>
    ensures { OnOk result (string_bytes out.new ≡ string_bytes out.old ++ shown_identifier text.now) }
{
    if text.is_empty() {
        push_word(out, "-")
    } else {
        push_text(alloc, out, text)
    }
}

/// What a name goes on with: ASCII letters and digits, `_`, `:`, `-` and `.`.
fn is_further(c: char) -> bool
    ensures { result ≡ is_further_of c }
{
    c >= 'a' && c <= 'z'
        || c >= 'A' && c <= 'Z'
        || c == '_'
        || c >= '0' && c <= ':'
        || c == '-'
        || c == '.'
}

/// Appends the name that stands in front of characters.
fn push_name(out: &mut String, chars: &[char]) -> Result<(), NoMemory>
    ensures { OnOk result (string_bytes out.new ≡ string_bytes out.old ++ name_in_front chars.now) }
{
    let mut rest = chars;
    while let [c, more @ ..] = rest {
        if !is_further(*c) {
            return Ok(());
        }
        out.push(*c)?;
        rest = more;
    }
    Ok(())
}

/// Appends the name of a raw element.
pub fn push_raw_name(alloc: Global, out: &mut String, text: &Text) -> Result<(), NoMemory>
    ensures { OnOk result (string_bytes out.new ≡ string_bytes out.old ++ raw_name text.now) }
{
    let chars = chars_of(alloc, text)?;
    match chars.as_slice() {
        [] => Ok(()),
        [_, name @ ..] => {
            push_name(out, name)?;
            Ok(())
        }
    }
}
