//! Texts of lines.
ghost use Rattle.std.specs.Prelude.{◌≡◌, ◌++◌, OnOk, IfOk, string_bytes};
ghost use Rattle.std.specs.Fmt.{decimal};
ghost use Rattle.line_texts.specs.Texts.{printed as printed_of, printed_text};

use mos_fields::{NoMemory, Text};
use std::alloc::Global;

/// Appends a text as it is. Memory may run out; then some of it may have been appended, here and in the functions below.
pub fn push_word(out: &mut String, word: &str) -> Result<(), NoMemory>
    ensures { OnOk result (string_bytes out.new ≡ string_bytes out.old ++ word.now) }
{
    out.push_str(word)?;
    Ok(())
}

/// Appends the decimal digits of a number.
pub fn push_number(alloc: Global, out: &mut String, number: u64) -> Result<(), NoMemory>
    ensures { OnOk result (string_bytes out.new ≡ string_bytes out.old ++ decimal number) }
{
    let digits = number.to_string(alloc)?;
    push_word(out, digits.as_str())
}

// A character as it is printed: tab, line feed and carriage return as a space.
fn printed(c: char) -> char
    ensures { result ≡ printed_of c }
{
    if c == '\t' || c == '\n' || c == '\r' {
        ' '
    } else {
        c
    }
}

/// Appends characters as they are printed: tab, line feed and carriage return as a space.
pub fn push_chars(out: &mut String, chars: &[char]) -> Result<(), NoMemory>
    ensures { OnOk result (string_bytes out.new ≡ string_bytes out.old ++ printed_text chars.now) }
{
    for c in chars {
        out.push(printed(*c))?;
    }
    Ok(())
}

/// The characters of a text. The only error is that memory runs out.
pub fn chars_of(alloc: Global, text: &Text) -> Result<Vec<char>, NoMemory>
    ensures { IfOk result (λ chars. chars.items ≡ text.now) }
{
    let mut chars = Vec::new(alloc);
    text.push_to(&mut chars)?;
    Ok(chars)
}

/// Appends a text as it is printed.
pub fn push_text(alloc: Global, out: &mut String, text: &Text) -> Result<(), NoMemory>
    ensures { OnOk result (string_bytes out.new ≡ string_bytes out.old ++ printed_text text.now) }
{
    let chars = chars_of(alloc, text)?;
    push_chars(out, &chars)
}
