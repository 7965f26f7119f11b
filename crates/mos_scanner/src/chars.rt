//! Which characters stand where.
ghost use Rattle.std.specs.Prelude.{◌≡◌, ◌==◌, ◌&&◌, ℕ, List, [], length};
ghost use Rattle.mos_fields.specs.Names.{is_start as is_start_of, is_further as is_further_of, may_grow as may_grow_of};
ghost use Rattle.mos_fields.specs.Characters.{chars_of};
ghost use Rattle.mos_lexer.specs.Lexing.{byte_order_mark};
ghost use Rattle.mos_fields.specs.Raw.{is_space as is_space_of, is_quote as is_quote_of};
ghost use Rattle.mos_fields.specs.Forms.{is_white as is_white_of};

/// White space.
#[inline(always)]
pub fn is_space(c: char) -> bool
    ensures { result ≡ is_space_of c }
{
    c == ' ' || c == '\t' || c == '\n' || c == '\r'
}

/// A quote.
#[inline(always)]
pub fn is_quote(c: char) -> bool
    ensures { result ≡ is_quote_of c }
{
    c == '"' || c == '\''
}

/// What a name begins with.
#[inline(always)]
pub fn is_start(c: char) -> bool
    ensures { result ≡ is_start_of c }
{
    c >= 'a' && c <= 'z' || c >= 'A' && c <= 'Z' || c == '_'
}

/// What a name goes on with.
#[inline(always)]
pub fn is_further(c: char) -> bool
    ensures { result ≡ is_further_of c }
{
    is_start(c) || c >= '0' && c <= ':' || c == '-' || c == '.'
}

/// A name of so many characters, all of them ASCII, may go on with this character. `>` ends most of them.
#[inline(always)]
#[tactic(auto, unfolding(mos_fields::specs::Names::may_grow))]
pub fn may_grow(length_so_far: usize, c: char) -> bool
    ensures { (n : List ℕ) → length n ≡ length_so_far → result ≡ may_grow_of n c }
{
    if c == '>' {
        false
    } else if length_so_far == 0 {
        is_start(c)
    } else {
        is_further(c) && length_so_far < 128
    }
}

/// U+FEFF, where it is a token: before a message.
#[inline(always)]
pub fn is_mark(outside: bool, c: char) -> bool
    ensures { result ≡ (outside && (c == byte_order_mark)) }
{
    outside && c == '\u{FEFF}'
}

/// U+FEFF behind white space, where it is a token.
#[inline(always)]
pub fn is_mark_behind_white(outside: bool, c: char, raw: &[u16]) -> bool
    ensures { result ≡ (outside && (c == byte_order_mark) && is_white_of (chars_of raw.now)) }
{
    is_mark(outside, c) && is_white(raw)
}

/// White space or nothing.
fn is_white(raw: &[u16]) -> bool
    ensures { result ≡ is_white_of raw.now }
{
    raw.iter()
        .all(|u| *u == 32 || *u == 9 || *u == 10 || *u == 13)
}

/// Characters that are white space, or none.
pub fn is_white_text(raw: &[u16]) -> bool
    ensures { result ≡ is_white_of (chars_of raw.now) }
{
    is_white(raw)
}

/// What an attribute begins with, which stands behind white space.
#[inline(always)]
pub fn begins_attribute(spaced: bool, c: char) -> bool
    ensures { result ≡ (spaced && may_grow_of [] c) }
{
    spaced && may_grow(0, c)
}

/// What the XML declaration ends with: `>` behind a `?`.
#[inline(always)]
pub fn ends_declaration(question: bool, c: char) -> bool
    ensures { result ≡ (question && (c == 62)) }
{
    question && c == '>'
}
