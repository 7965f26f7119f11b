//! What is said of a text.
use end_settings::{
    SettingsFault, read_document, read_gate_settings, read_listen, read_server_settings,
};
use mos_fields::NoMemory;
use settings_help::{Program, explain, gate_notes, server_notes, unknown_lines};
use std::alloc::Global;

/// The text of a row.
pub fn text_of(alloc: Global, row: &str, keys: &str) -> Result<String, NoMemory> {
    let mut text = String::new(alloc);
    for letter in row.chars() {
        match letter {
            '|' => text.push('\n')?,
            '$' => text.push_str(keys)?,
            '%' => push_letters(&mut text)?,
            _ => text.push(letter)?,
        }
    }
    Ok(text)
}

// Appends 128 letters.
fn push_letters(text: &mut String) -> Result<(), NoMemory> {
    for _ in 0..128 {
        text.push('i')?;
    }
    Ok(())
}

// The fault of a text, or the notes on it.
fn notes_of(
    alloc: Global,
    program: Program,
    text: &[u8],
) -> Result<Result<String, SettingsFault>, NoMemory> {
    match program {
        Program::Server => match read_server_settings(alloc, text) {
            Ok(settings) => Ok(Ok(server_notes(alloc, "ncs.toml", &settings)?)),
            Err(fault) => Ok(Err(fault)),
        },
        Program::Gateway => match read_gate_settings(alloc, text) {
            Ok(settings) => Ok(Ok(gate_notes(alloc, "ncs.toml", &settings)?)),
            Err(fault) => Ok(Err(fault)),
        },
    }
}

// A fault's line, with a line feed.
fn fault_line(alloc: Global, text: &[u8], fault: SettingsFault) -> Result<String, NoMemory> {
    let mut line = explain(alloc, "ncs.toml", text, fault)?;
    line.push('\n')?;
    Ok(line)
}

// Lines on one line: a bar ends each. What the reader of TOML says of a cause is a question mark.
fn barred(alloc: Global, lines: &str) -> Result<String, NoMemory> {
    let mut barred = String::new(alloc);
    for line in lines.lines() {
        let whole = match line.rsplit_once(": ") {
            Some((front, _)) if line.starts_with("NotToml") => front,
            _ => line,
        };
        barred.push_str(whole)?;
        if whole.len() < line.len() {
            barred.push_str(": ?")?;
        }
        barred.push('|')?;
    }
    Ok(barred)
}

// The lines on a text without a fault.
fn good_lines(
    alloc: Global,
    program: Program,
    text: &[u8],
    notes: &str,
) -> Result<String, NoMemory> {
    match read_document(alloc, text) {
        Ok(table) => {
            let mut lines = unknown_lines(alloc, "ncs.toml", program, &table)?;
            lines.push_str(notes)?;
            Ok(lines)
        }
        Err(fault) => fault_line(alloc, text, fault),
    }
}

/// All that is said of a text of settings.
pub fn lines_of(alloc: Global, program: Program, text: &[u8]) -> Result<String, NoMemory> {
    let lines = match (notes_of(alloc, program, text)?, read_listen(alloc, text)) {
        (Err(fault), _) | (_, Err(fault)) => fault_line(alloc, text, fault)?,
        (Ok(notes), Ok(_)) => good_lines(alloc, program, text, notes.as_str())?,
    };
    barred(alloc, lines.as_str())
}
