//! Words of a line.
ghost use Rattle.std.specs.Prelude.{◌≡◌, [], ◌∷◌, ◌++◌, ◌+◌, OnOk, string_bytes};
ghost use Rattle.std.specs.Fmt.{decimal};
ghost use Rattle.world_scripts.specs.Lines.{utf8};
ghost use Rattle.world_scripts.specs.Listing.{connection_word};
ghost use Rattle.state_listing.specs.Words.{behind};

use mos_fields::{Id, NoMemory};
use std::alloc::Global;

/// Appends a text as it is.
pub fn push_word(line: &mut String, word: &str) -> Result<(), NoMemory>
    ensures { OnOk result (string_bytes line.new ≡ string_bytes line.old ++ word.now) }
{
    line.push_str(word)?;
    Ok(())
}

/// Appends characters.
fn push_chars(line: &mut String, chars: &[char]) -> Result<(), NoMemory>
    ensures { OnOk result (string_bytes line.new ≡ string_bytes line.old ++ utf8 chars.now) }
{
    for c in chars {
        line.push(*c)?;
    }
    Ok(())
}

/// Appends an identifier.
pub fn push_id(alloc: Global, line: &mut String, id: &Id) -> Result<(), NoMemory>
    ensures { OnOk result (string_bytes line.new ≡ string_bytes line.old ++ utf8 id.now) }
{
    let mut chars = Vec::new(alloc);
    id.push_to(&mut chars)?;
    push_chars(line, &chars)
}

/// Appends a word behind a space.
pub fn add_word(line: &mut String, word: &str) -> Result<(), NoMemory>
    ensures { OnOk result (string_bytes line.new ≡ string_bytes line.old ++ behind (word.now ∷ [])) }
{
    push_word(line, " ")?;
    push_word(line, word)
}

/// Appends an identifier behind a space.
pub fn add_id(alloc: Global, line: &mut String, id: &Id) -> Result<(), NoMemory>
    ensures { OnOk result (string_bytes line.new ≡ string_bytes line.old ++ behind (utf8 id.now ∷ [])) }
{
    push_word(line, " ")?;
    push_id(alloc, line, id)
}

/// Appends a number behind a space, as its decimal digits.
pub fn add_number(alloc: Global, line: &mut String, number: u64) -> Result<(), NoMemory>
    ensures { OnOk result (string_bytes line.new ≡ string_bytes line.old ++ behind (decimal number ∷ [])) }
{
    let digits = number.to_string(alloc)?;
    add_word(line, digits.as_str())
}

/// Appends the first word of a line about a device, and the device's number. The device counts from 0, the line from 1.
pub fn push_head(alloc: Global, line: &mut String, word: &str, d: u32) -> Result<(), NoMemory>
    ensures { OnOk result (string_bytes line.new ≡ string_bytes line.old ++ (word.now ++ behind (decimal (d + 1) ∷ []))) }
{
    push_word(line, word)?;
    add_number(alloc, line, d as u64 + 1)
}

/// Appends a word and a number, each behind a space.
pub fn add_numbered(
    alloc: Global,
    line: &mut String,
    word: &str,
    number: u64,
) -> Result<(), NoMemory>
    ensures { OnOk result (string_bytes line.new ≡ string_bytes line.old ++ behind (word.now ∷ decimal number ∷ [])) }
{
    add_word(line, word)?;
    add_number(alloc, line, number)
}

/// Appends a word and an identifier, each behind a space.
pub fn add_named(alloc: Global, line: &mut String, word: &str, id: &Id) -> Result<(), NoMemory>
    ensures { OnOk result (string_bytes line.new ≡ string_bytes line.old ++ behind (word.now ∷ utf8 id.now ∷ [])) }
{
    add_word(line, word)?;
    add_id(alloc, line, id)
}

/// Appends a word, an identifier and a number, each behind a space.
pub fn add_named_and_numbered(
    alloc: Global,
    line: &mut String,
    word: &str,
    id: &Id,
    number: u64,
) -> Result<(), NoMemory>
    ensures { OnOk result (string_bytes line.new ≡ string_bytes line.old ++ behind (word.now ∷ utf8 id.now ∷ decimal number ∷ [])) }
{
    add_named(alloc, line, word, id)?;
    add_number(alloc, line, number)
}

/// Appends a word, an identifier and two numbers, each behind a space.
pub fn add_named_and_numbered_twice(
    alloc: Global,
    line: &mut String,
    word: &str,
    id: &Id,
    number: u64,
    other: u64,
) -> Result<(), NoMemory>
    ensures { OnOk result (string_bytes line.new ≡ string_bytes line.old ++ behind (word.now ∷ utf8 id.now ∷ decimal number ∷ decimal other ∷ [])) }
{
    add_named_and_numbered(alloc, line, word, id, number)?;
    add_number(alloc, line, other)
}

/// Appends the number of a connection behind a space, or `-` where there is none.
pub fn add_connection(alloc: Global, line: &mut String, link: Option<u64>) -> Result<(), NoMemory>
    ensures { OnOk result (string_bytes line.new ≡ string_bytes line.old ++ behind (connection_word link ∷ [])) }
{
    match link {
        None => add_word(line, "-"),
        Some(number) => add_number(alloc, line, number),
    }
}

/// Appends a line and its line feed.
pub fn end_line(out: &mut Vec<u8>, line: &String) -> Result<(), NoMemory>
    ensures { OnOk result (out.new.items ≡ out.old.items ++ (string_bytes line.now ++ 10 ∷ [])) }
{
    out.extend_from_slice(line.as_bytes())?;
    out.push(10)?;
    Ok(())
}
