//! The lines of a deck that writes what it is told.
ghost use Rattle.std.specs.Prelude.{◌≡◌, [], ◌∷◌, ◌++◌, codes, IfOk, OnOk, string_bytes};
ghost use Rattle.std.specs.List.{flat_map};
ghost use Rattle.deck_rack.specs.Lines.{arm_line as arm_line_of, disarm_line as disarm_line_of, item_word, item_words, load_line as load_line_of, utf8};

use crate::plays::PlayItem;
use mos_fields::{Id, NoMemory, OptId};
use std::alloc::Global;

/// The line of a playlist that is loaded.
pub fn load_line(alloc: Global, ro: &Id, list: &[PlayItem]) -> Result<String, NoMemory>
    ensures { IfOk result (λ line. string_bytes line ≡ load_line_of ro.now list.now) }
{
    let mut line = String::new(alloc);
    push_head(alloc, &mut line, "load ", ro)?;
    push_items(alloc, &mut line, list)?;
    push_word(&mut line, "\n")?;
    Ok(line)
}

/// The line of an order for which the deck is armed.
pub fn arm_line(alloc: Global, ro: &Id) -> Result<String, NoMemory>
    ensures { IfOk result (λ line. string_bytes line ≡ arm_line_of ro.now) }
{
    let mut line = String::new(alloc);
    push_head(alloc, &mut line, "arm ", ro)?;
    push_word(&mut line, "\n")?;
    Ok(line)
}

/// The line of an order for which the deck is no more armed.
pub fn disarm_line(alloc: Global, ro: &Id) -> Result<String, NoMemory>
    ensures { IfOk result (λ line. string_bytes line ≡ disarm_line_of ro.now) }
{
    let mut line = String::new(alloc);
    push_head(alloc, &mut line, "disarm ", ro)?;
    push_word(&mut line, "\n")?;
    Ok(line)
}

// Appends a word and a roID.
fn push_head(alloc: Global, line: &mut String, word: &str, ro: &Id) -> Result<(), NoMemory>
    ensures { OnOk result (string_bytes line.new ≡ string_bytes line.old ++ (word.now ++ utf8 ro.now)) }
{
    push_word(line, word)?;
    push_id(alloc, line, ro)
}

fn push_items(alloc: Global, line: &mut String, list: &[PlayItem]) -> Result<(), NoMemory>
    ensures { OnOk result (string_bytes line.new ≡ string_bytes line.old ++ item_words list.now) }
{
    'items: for play in list {
        push_item(alloc, line, play)?;
    }
    Ok(())
}

// Appends ` ITEM=OBJ`.
fn push_item(alloc: Global, line: &mut String, play: &PlayItem) -> Result<(), NoMemory>
    ensures { OnOk result (string_bytes line.new ≡ string_bytes line.old ++ item_word play.now) }
{
    push_word(line, " ")?;
    push_id(alloc, line, &play.item)?;
    push_word(line, "=")?;
    push_opt_id(alloc, line, &play.obj)
}

// Appends a text as it is.
fn push_word(line: &mut String, word: &str) -> Result<(), NoMemory>
    ensures { OnOk result (string_bytes line.new ≡ string_bytes line.old ++ word.now) }
{
    line.push_str(word)?;
    Ok(())
}

fn push_id(alloc: Global, line: &mut String, id: &Id) -> Result<(), NoMemory>
    ensures { OnOk result (string_bytes line.new ≡ string_bytes line.old ++ utf8 id.now) }
{
    let mut chars = Vec::new(alloc);
    id.push_to(&mut chars)?;
    push_chars(line, &chars)
}

fn push_opt_id(alloc: Global, line: &mut String, id: &OptId) -> Result<(), NoMemory>
    ensures { OnOk result (string_bytes line.new ≡ string_bytes line.old ++ utf8 id.now) }
{
    let mut chars = Vec::new(alloc);
    id.push_to(&mut chars)?;
    push_chars(line, &chars)
}

// Appends characters.
fn push_chars(line: &mut String, chars: &[char]) -> Result<(), NoMemory>
    ensures { OnOk result (string_bytes line.new ≡ string_bytes line.old ++ utf8 chars.now) }
{
    for c in chars {
        line.push(*c)?;
    }
    Ok(())
}
