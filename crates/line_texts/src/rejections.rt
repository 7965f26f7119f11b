//! The line of a rejection.
ghost use Rattle.std.specs.Prelude.{◌≡◌, ◌++◌, OnOk, IfOk, string_bytes};
ghost use Rattle.line_texts.specs.Texts.{kind_text, refused_line as refused_line_of, with_field};

use crate::texts::{push_number, push_word};
use mos_fields::{Field, NoMemory};
use mos_lexer::Kind;
use std::alloc::Global;

// Appends a kind that names a field.
fn push_with_field(out: &mut String, word: &str, field: Field) -> Result<(), NoMemory>
    ensures { OnOk result (string_bytes out.new ≡ string_bytes out.old ++ with_field word.now field) }
{
    push_word(out, word)?;
    push_word(out, "(")?;
    push_word(out, field.name())?;
    push_word(out, ")")
}

// Appends a kind.
fn push_kind(out: &mut String, kind: Kind) -> Result<(), NoMemory>
    ensures { OnOk result (string_bytes out.new ≡ string_bytes out.old ++ kind_text kind) }
{
    match kind {
        Kind::BadUnit => push_word(out, "BadUnit"),
        Kind::BadChar => push_word(out, "BadChar"),
        Kind::Entity => push_word(out, "Entity"),
        Kind::Twice(field) => push_with_field(out, "Twice", field),
        Kind::Order(field) => push_with_field(out, "Order", field),
        Kind::Missing(field) => push_with_field(out, "Missing", field),
        Kind::Value(field) => push_with_field(out, "Value", field),
        Kind::Tag => push_word(out, "Tag"),
        Kind::TooLong => push_word(out, "TooLong"),
        Kind::End => push_word(out, "End"),
    }
}

/// The line of a rejection: its place in code units, and its kind. The only error is that memory runs out.
pub fn refused_line(alloc: Global, place: usize, kind: Kind) -> Result<String, NoMemory>
    ensures { IfOk result (λ line. string_bytes line ≡ refused_line_of place kind) }
{
    let mut line = String::new(alloc);
    push_word(&mut line, "REFUSED ")?;
    push_number(alloc, &mut line, place as u64)?;
    push_word(&mut line, " ")?;
    push_kind(&mut line, kind)?;
    push_word(&mut line, "\n")?;
    Ok(line)
}
