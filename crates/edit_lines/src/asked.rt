//! What a line asks.
ghost use Rattle.std.specs.Prelude.{◌≡◌, IfOk};
ghost use Rattle.script_edits.specs.Edits.{edit_of};
ghost use Rattle.script_edits.specs.Words.{words_in};
ghost use Rattle.edit_lines.specs.Asked.{asked_of, edit_asked, is_passed_over as is_passed_over_of, list_asked, words_asked};

use mos_edits::message_of_edit;
use mos_fields::NoMemory;
use mos_values::Message;
use script_edits::{edit, is_word, name, parts};
use std::alloc::Global;

/// What a line asks.
#[derive(Drop)]
pub enum Asked {
    /// It is passed over: it is empty, or begins with `#`.
    Nothing,
    /// It is neither an edit nor a list.
    NoEdit,
    /// It asks by this message.
    Asks(Message),
}

/// The most bytes of a line, without its line feed.
const LINE_LIMIT: usize = 1000;

// What words ask that are an edit, or none.
fn edited(alloc: Global, words: &[&[u8]]) -> Result<Asked, NoMemory>
    ensures { IfOk result (λ a. a ≡ edit_asked (edit_of (words_in words.now))) }
{
    match edit(alloc, words)? {
        None => Ok(Asked::NoEdit),
        Some(edit) => Ok(Asked::Asks(message_of_edit(edit))),
    }
}

// What a list asks, by the words behind `list`: of one order, or of all.
fn listed(alloc: Global, words: &[&[u8]]) -> Result<Asked, NoMemory>
    ensures { IfOk result (λ a. a ≡ list_asked (words_in words.now)) }
{
    match words {
        [] => Ok(Asked::Asks(Message::RoReqAll)),
        [r] => match name(alloc, r)? {
            None => Ok(Asked::NoEdit),
            Some(ro) => Ok(Asked::Asks(Message::RoReq(ro))),
        },
        _ => Ok(Asked::NoEdit),
    }
}

// What words ask.
fn by_words(alloc: Global, words: &[&[u8]]) -> Result<Asked, NoMemory>
    ensures { IfOk result (λ a. a ≡ words_asked (words_in words.now)) }
{
    match words {
        [] => Ok(Asked::NoEdit),
        [w, more @ ..] => {
            if is_word(w, b"list") {
                listed(alloc, more)
            } else {
                edited(alloc, words)
            }
        }
    }
}

// Whether a line is passed over.
fn is_passed_over(line: &[u8]) -> bool
    ensures { result ≡ is_passed_over_of line.now }
{
    match line {
        [] => true,
        [b, ..] => *b == b'#',
    }
}

/// What a line asks, without its line feed. An empty line and one that begins with `#` ask nothing. Any other is `list`, `list`
/// and a roID, or an edit in the words of scripts, and has 1,000 bytes at most; else it is `NoEdit`. The only error is that
/// memory runs out.
pub fn line_asks(alloc: Global, line: &[u8]) -> Result<Asked, NoMemory>
    ensures { IfOk result (λ a. a ≡ asked_of line.now) }
{
    if is_passed_over(line) {
        Ok(Asked::Nothing)
    } else if line.len() <= LINE_LIMIT {
        let words = parts(alloc, line, b' ')?;
        by_words(alloc, &words)
    } else {
        Ok(Asked::NoEdit)
    }
}
