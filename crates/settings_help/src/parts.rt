//! The parts of a line.
ghost use Rattle.std.specs.Prelude.{◌≡◌, ◌++◌, IfOk, OnOk, string_bytes};
ghost use Rattle.std.specs.Fmt.{decimal};
ghost use Rattle.std.specs.Str.{chars as chars_of_text};
ghost use Rattle.settings_help.specs.Lines.{printed as printed_of, printed_text};

use mos_fields::{Id, NoMemory, Text};
use std::alloc::{AllocError, Global};

/// Appends a word.
pub(crate) fn push_word(out: &mut String, word: &str) -> Result<(), NoMemory>
    ensures { OnOk result (string_bytes out.new ≡ string_bytes out.old ++ word.now) }
{
    out.push_str(word)?;
    Ok(())
}

/// Appends the decimal digits of a number.
pub(crate) fn push_number(alloc: Global, out: &mut String, number: u64) -> Result<(), NoMemory>
    ensures { OnOk result (string_bytes out.new ≡ string_bytes out.old ++ decimal number) }
{
    let digits = number.to_string(alloc)?;
    push_word(out, digits.as_str())
}

// A character as it is printed: one that moves or ends a line as a space.
fn printed(c: char) -> char
    ensures { result ≡ printed_of c }
{
    if c < ' ' || c == '\u{7f}' { ' ' } else { c }
}

// Appends characters as they are printed.
fn push_chars(out: &mut String, chars: &[char]) -> Result<(), NoMemory>
    ensures { OnOk result (string_bytes out.new ≡ string_bytes out.old ++ printed_text chars.now) }
{
    for c in chars {
        out.push(printed(*c))?;
    }
    Ok(())
}

// The characters of a text in UTF-8.
fn chars_of(alloc: Global, text: &str) -> Result<Vec<char>, AllocError>
    ensures { IfOk result (λ v. v.items ≡ chars_of_text text.now) }
{
    text.chars().collect(alloc)
}

/// Appends a text in UTF-8 as it is printed.
pub(crate) fn push_str(alloc: Global, out: &mut String, text: &str) -> Result<(), NoMemory>
    ensures { OnOk result (string_bytes out.new ≡ string_bytes out.old ++ printed_text (chars_of_text text.now)) }
{
    let chars = chars_of(alloc, text)?;
    push_chars(out, &chars)
}

/// Appends a text as it is printed.
pub(crate) fn push_text(alloc: Global, out: &mut String, text: &Text) -> Result<(), NoMemory>
    ensures { OnOk result (string_bytes out.new ≡ string_bytes out.old ++ printed_text text.now) }
{
    let mut chars = Vec::new(alloc);
    text.push_to(&mut chars)?;
    push_chars(out, &chars)
}

/// Appends an ID as it is printed.
pub(crate) fn push_id(alloc: Global, out: &mut String, id: &Id) -> Result<(), NoMemory>
    ensures { OnOk result (string_bytes out.new ≡ string_bytes out.old ++ printed_text id.now) }
{
    push_text(alloc, out, id.text())
}
