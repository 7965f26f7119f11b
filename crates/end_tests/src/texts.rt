//! Texts of settings in rows, and values as words.
use mos_fields::{Id, NoMemory, Text};
use std::alloc::{AllocError, Global};

/// The TOML text of a row, in which `|` stands for the end of a line, `%` for 128 letters and `$` for the keys that have to be
/// there.
pub fn toml_of(alloc: Global, row: &str, keys: &str) -> Result<String, AllocError> {
    let mut text = String::new(alloc);
    for letter in row.chars() {
        match letter {
            '|' => text.push('\n')?,
            '%' => push_letters(&mut text)?,
            '$' => text.push_str(keys)?,
            _ => text.push(letter)?,
        }
    }
    Ok(text)
}

fn push_letters(text: &mut String) -> Result<(), AllocError> {
    for _ in 0..128u8 {
        text.push('x')?;
    }
    Ok(())
}

/// The characters of a text.
pub fn text_word(alloc: Global, text: &Text) -> Result<String, NoMemory> {
    let mut chars = Vec::new(alloc);
    text.push_to(&mut chars)?;
    Ok(chars.iter().collect::<String>(alloc)?)
}

/// The characters of an ID.
pub fn id_word(alloc: Global, id: &Id) -> Result<String, NoMemory> {
    text_word(alloc, id.text())
}

/// A `=` and the characters of a text, or a `-` where there is none.
pub fn maybe_word(alloc: Global, text: &Option<Text>) -> Result<String, NoMemory> {
    match text {
        Some(text) => {
            let word = text_word(alloc, text)?;
            Ok(format!(in alloc; "={word}")?)
        }
        None => Ok(String::from_str(alloc, "-")?),
    }
}
