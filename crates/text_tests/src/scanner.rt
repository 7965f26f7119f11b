//! Tokens of small streams.
ghost use Rattle.std.specs.Prelude.{◌≤◌, length};
ghost use Rattle.mos_scanner.specs.ScannerView.{IsSound, IsWhole};

use mos_fields::NoMemory;
use mos_scanner::{Character, Kind, Scanned, Scanner, character_at};
use mos_tokens::Token;
use std::alloc::Global;
use std::test::Fail;

/// Appends a letter, a text and a bar.
fn push(out: &mut Vec<u16>, letter: u8, text: &[u16]) -> Result<(), NoMemory> {
    out.push(u16::from(letter))?;
    out.extend_from_slice(text)?;
    out.push(u16::from(b'|'))?;
    Ok(())
}

/// Appends a tag.
fn push_tag(
    out: &mut Vec<u16>,
    letter: u8,
    name: &[u16],
    attributes: &[mos_tokens::Attribute],
    raw: &[u16],
) -> Result<(), NoMemory> {
    push(out, letter, name)?;
    for attribute in attributes {
        push(out, b'a', attribute.name().units())?;
        push(out, b'=', attribute.value().units())?;
    }
    push(out, b'w', raw)
}

/// Appends a token.
fn push_token(out: &mut Vec<u16>, token: Token) -> Result<(), NoMemory> {
    match token {
        Token::OpenTag(name, attributes, raw) => push_tag(out, b'O', name, attributes, raw),
        Token::EmptyTag(name, attributes, raw) => push_tag(out, b'E', name, attributes, raw),
        Token::CloseTag(name) => push(out, b'C', name),
        Token::Text(raw, text) => {
            push(out, b'T', text)?;
            push(out, b'w', raw)
        }
        Token::Tail(raw) => push(out, b'R', raw),
        Token::Mark => push(out, b'M', &[]),
        Token::Declaration => push(out, b'D', &[]),
    }
}

/// Behind a token that is whole: the rest of an element `r` is read as a raw element.
fn go_on(scanner: &mut Scanner, kind: Kind, held: &[u16], next: usize)
    requires whole { IsWhole kind scanner.old held.now next }
    requires within { next ≤ length held.now }
    ensures { IsSound scanner.new held.now next }
{
    match kind {
        Kind::OpenTag => {
            let is_raw = match scanner.token(kind, held, next) {
                Token::OpenTag([114], _, _) => true,
                _ => false,
            };
            if is_raw {
                scanner.begin_tail(held, next);
            } else {
                scanner.begin(next);
            }
        }
        _ => scanner.begin(next),
    }
}

/// The code units of a text, in which `~` stands for a line feed.
fn units_of(alloc: Global, text: &str) -> Result<Vec<u16>, NoMemory> {
    let mut units = Vec::new(alloc);
    for c in text.chars() {
        let c = if c == '~' { '\n' } else { c };
        let mut pair = [0; 2];
        units.extend_from_slice(c.encode_utf16(&mut pair))?;
    }
    Ok(units)
}

/// The tokens of a stream of code units, and what isn't one. `runs` says whether runs are read at once.
fn trace_units(
    alloc: Global,
    held: &[u16],
    outside: bool,
    runs: bool,
) -> Result<Vec<u16>, NoMemory> {
    let mut scanner = Scanner::new(alloc);
    let mut out = Vec::new(alloc);
    let mut here = 0;
    'characters: for _ in 0..held.len() {
        if runs {
            here = scanner.skip(held, here)?;
        }
        if here == held.len() {
            break;
        }
        let (c, next) = match character_at(held, here) {
            Character::Whole(c, next) => (c, next),
            _ => {
                push(&mut out, b'?', &[])?;
                break;
            }
        };
        match scanner.step(alloc, held, here, next, c, outside)? {
            Scanned::More => {}
            Scanned::Token(kind) => {
                push_token(&mut out, scanner.token(kind, held, next))?;
                go_on(&mut scanner, kind, held, next);
            }
            Scanned::TextBefore => {
                push_token(&mut out, scanner.text(held, here))?;
                scanner.begin_tag(held, here, next);
            }
            Scanned::TextBeforeMark => {
                push_token(&mut out, scanner.text(held, here))?;
                push_token(&mut out, Token::Mark)?;
                scanner.begin(next);
            }
            Scanned::NoToken => {
                push(&mut out, b'!', &[])?;
                break;
            }
            Scanned::NoReference(_) => {
                push(&mut out, b'&', &[])?;
                break;
            }
        }
        here = next;
    }
    Ok(out)
}

/// The stream has these tokens, whether or not runs are read at once.
fn has(alloc: Global, stream: &str, outside: bool, tokens: &str) -> Result<bool, NoMemory> {
    let held = units_of(alloc, stream)?;
    let tokens = units_of(alloc, tokens)?;
    let slow = trace_units(alloc, &held, outside, false)?;
    let fast = trace_units(alloc, &held, outside, true)?;
    Ok(slow.as_slice() == tokens.as_slice() && fast.as_slice() == tokens.as_slice())
}

/// Streams, outside of a message or inside one, and their tokens: tags and texts, references, raw elements, marks and
/// declarations, and characters that begin no token.
const STREAMS: &str = "\
inside <a>one</a ><b c = 'd&lt;e' f=\"g\"/>\u{1D11E}x<z => Oa|w<a>|Tone|wone|Ca|Eb|ac|=d<e|af|=g|w<b c = 'd&lt;e' f=\"g\"/>|T\u{1D11E}x|w\u{1D11E}x|
inside <long-name.of:an_Element>a text of more than sixteen characters</long-name.of:an_Element> => Olong-name.of:an_Element|w<long-name.of:an_Element>|Ta text of more than sixteen characters|wa text of more than sixteen characters|Clong-name.of:an_Element|
inside &lt;&gt;&amp;&quot;&apos;&#65;&#x1d11E;x< => T<>&\"'A\u{1D11E}x|w&lt;&gt;&amp;&quot;&apos;&#65;&#x1d11E;x|
inside a&#9;&#00000010;&#x10FFFF;< => Ta\t~\u{10FFFF}|wa&#9;&#00000010;&#x10FFFF;|
inside x&lr => &|
inside x&#; => &|
inside x&#1; => &|
inside x&#000000065; => &|
inside x&#xD800; => &|
inside x&#1114112 => &|
inside <a b='&aps => &|
inside <r>a<b></r ></R>&\u{FEFF}</r></r> => Or|w<r>|Ra<b></r ></R>&\u{FEFF}</r>|Cr|
inside <r/>x< => Er|w<r/>|Tx|wx|
outside \u{FEFF}<?xml version='1.0'?>\t\u{FEFF}<a> => M|D|T\t|w\t|M|Oa|w<a>|
outside x\u{FEFF}< => Tx\u{FEFF}|wx\u{FEFF}|
inside \u{FEFF}< => T\u{FEFF}|w\u{FEFF}|
inside <1 => !|
inside </> => !|
inside <a b='<' => !|
inside <a b='c'd='e'> => !|
inside <?xmlx => !|
inside <a/ > => !|
inside a\u{1} => ?|";

/// Whether a row has the tokens of its stream.
fn row_holds(alloc: Global, row: &str) -> Result<bool, NoMemory> {
    let Some((head, tokens)) = row.split_once(" => ") else {
        return Ok(false);
    };
    let Some((place, stream)) = head.split_once(' ') else {
        return Ok(false);
    };
    has(alloc, stream, place == "outside", tokens)
}

#[test]
fn streams_have_their_tokens(rt: HostRuntime) -> Result<(), Fail> {
    let mut rows = 0u64;
    for row in STREAMS.lines() {
        assert!(rt; row_holds(rt.alloc(), row)?, "{row}");
        rows = rows.saturating_add(1);
    }
    assert_eq!(rt; rows, 23);
    Ok(())
}
