//! Texts of outcomes.
ghost use Rattle.std.specs.Prelude.{◌≡◌, ◌++◌, OnOk, IfOk, string_bytes};
ghost use Rattle.std.specs.Fmt.{decimal};
ghost use Rattle.world_scripts.specs.Lines.{spaced, utf8};

use mos_fields::{NoMemory, Text};
use std::alloc::Global;

/// Appends a word as it is.
pub fn push_word(line: &mut String, word: &str) -> Result<(), NoMemory>
    ensures { OnOk result (string_bytes line.new ≡ string_bytes line.old ++ word.now) }
{
    line.push_str(word)?;
    Ok(())
}

/// Appends the decimal digits of a number.
fn push_digits(alloc: Global, line: &mut String, number: u64) -> Result<(), NoMemory>
    ensures { OnOk result (string_bytes line.new ≡ string_bytes line.old ++ decimal number) }
{
    let digits = number.to_string(alloc)?;
    push_word(line, digits.as_str())
}

/// Appends characters.
fn push_chars(line: &mut String, chars: &[char]) -> Result<(), NoMemory>
    ensures { OnOk result (string_bytes line.new ≡ string_bytes line.old ++ utf8 chars.now) }
{
    for c in chars {
        line.push(*c)?;
    }
    Ok(())
}

/// Appends a text.
pub fn push_text(alloc: Global, line: &mut String, text: &Text) -> Result<(), NoMemory>
    ensures { OnOk result (string_bytes line.new ≡ string_bytes line.old ++ utf8 text.now) }
{
    let mut chars = Vec::new(alloc);
    text.push_to(&mut chars)?;
    push_chars(line, &chars)
}

/// Appends a word and a number.
pub fn push_numbered(
    alloc: Global,
    line: &mut String,
    word: &str,
    number: u64,
) -> Result<(), NoMemory>
    ensures { OnOk result (string_bytes line.new ≡ string_bytes line.old ++ spaced word.now (decimal number)) }
{
    push_word(line, word)?;
    push_word(line, " ")?;
    push_digits(alloc, line, number)
}

/// Appends a word and a text.
pub fn push_named(alloc: Global, line: &mut String, word: &str, text: &Text) -> Result<(), NoMemory>
    ensures { OnOk result (string_bytes line.new ≡ string_bytes line.old ++ spaced word.now (utf8 text.now)) }
{
    push_word(line, word)?;
    push_word(line, " ")?;
    push_text(alloc, line, text)
}

/// Appends a word, a text and a number.
pub fn push_named_and_numbered(
    alloc: Global,
    line: &mut String,
    word: &str,
    text: &Text,
    number: u64,
) -> Result<(), NoMemory>
    ensures { OnOk result (string_bytes line.new ≡ string_bytes line.old ++ spaced word.now (spaced (utf8 text.now) (decimal number))) }
{
    push_named(alloc, line, word, text)?;
    push_word(line, " ")?;
    push_digits(alloc, line, number)
}

/// Appends a word, a text and two numbers.
pub fn push_named_and_numbered_twice(
    alloc: Global,
    line: &mut String,
    word: &str,
    text: &Text,
    number: u64,
    other: u64,
) -> Result<(), NoMemory>
    ensures { OnOk result (string_bytes line.new ≡ string_bytes line.old ++ spaced word.now (spaced (utf8 text.now) (spaced (decimal number) (decimal other)))) }
{
    push_named_and_numbered(alloc, line, word, text, number)?;
    push_word(line, " ")?;
    push_digits(alloc, line, other)
}

/// Appends a word and two texts.
pub fn push_named_twice(
    alloc: Global,
    line: &mut String,
    word: &str,
    text: &Text,
    other: &Text,
) -> Result<(), NoMemory>
    ensures { OnOk result (string_bytes line.new ≡ string_bytes line.old ++ spaced word.now (spaced (utf8 text.now) (utf8 other.now))) }
{
    push_named(alloc, line, word, text)?;
    push_word(line, " ")?;
    push_text(alloc, line, other)
}
