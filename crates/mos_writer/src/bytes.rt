//! Code units as bytes, the high one first.
ghost use Rattle.std.specs.Prelude.{◌≡◌, ◌≤◌, [], ◌∷◌, ◌++◌, OnOk, IsTrue, drop, length};
ghost use Rattle.mos_fields.specs.Characters.{unit_bytes};
ghost use Rattle.mos_fields.specs.Escapes.{escaped, escaped_char};
ghost use Rattle.mos_writer.specs.Encoded.{in_bytes};

use mos_fields::NoMemory;

fn push_unit(out: &mut Vec<u8>, unit: u16) -> Result<(), NoMemory>
    ensures { OnOk result (out.new.items ≡ out.old.items ++ unit_bytes unit) }
{
    out.extend_from_slice(&[(unit / 256) as u8, (unit % 256) as u8])?;
    Ok(())
}

/// Appends four code units at once, which is faster than one after the other.
fn push_four(out: &mut Vec<u8>, a: u16, b: u16, c: u16, d: u16) -> Result<(), NoMemory>
    ensures { OnOk result (out.new.items ≡ out.old.items ++ (unit_bytes a ++ (unit_bytes b ++ (unit_bytes c ++ unit_bytes d)))) }
{
    out.extend_from_slice(&[
        (a / 256) as u8,
        (a % 256) as u8,
        (b / 256) as u8,
        (b % 256) as u8,
        (c / 256) as u8,
        (c % 256) as u8,
        (d / 256) as u8,
        (d % 256) as u8,
    ])?;
    Ok(())
}

fn push_character(out: &mut Vec<u8>, character: u8) -> Result<(), NoMemory>
    ensures { OnOk result (out.new.items ≡ out.old.items ++ unit_bytes character) }
{
    push_unit(out, u16::from(character))
}

fn push_four_characters(out: &mut Vec<u8>, a: u8, b: u8, c: u8, d: u8) -> Result<(), NoMemory>
    ensures { OnOk result (out.new.items ≡ out.old.items ++ (unit_bytes a ++ (unit_bytes b ++ (unit_bytes c ++ unit_bytes d)))) }
{
    push_four(out, u16::from(a), u16::from(b), u16::from(c), u16::from(d))
}

fn push_two_characters(out: &mut Vec<u8>, a: u8, b: u8) -> Result<(), NoMemory>
    ensures { OnOk result (out.new.items ≡ out.old.items ++ (unit_bytes a ++ unit_bytes b)) }
{
    out.extend_from_slice(&[0, a, 0, b])?;
    Ok(())
}

fn push_characters(out: &mut Vec<u8>, text: &[u8]) -> Result<(), NoMemory>
    ensures { OnOk result (out.new.items ≡ out.old.items ++ in_bytes text.now) }
{
    match text {
        [] => Ok(()),
        [a, b, c, d, rest @ ..] => {
            push_four_characters(out, *a, *b, *c, *d)?;
            push_characters(out, rest)
        }
        [a, rest @ ..] => {
            push_character(out, *a)?;
            push_characters(out, rest)
        }
    }
}

/// Appends characters of ASCII. One or two, as they begin and end a tag, go the short way.
pub fn push_ascii(out: &mut Vec<u8>, text: &[u8]) -> Result<(), NoMemory>
    ensures { OnOk result (out.new.items ≡ out.old.items ++ in_bytes text.now) }
{
    match text {
        [a] => push_character(out, *a),
        [a, b] => push_two_characters(out, *a, *b),
        _ => push_characters(out, text),
    }
}

/// Appends code units.
pub fn push_units(out: &mut Vec<u8>, units: &[u16]) -> Result<(), NoMemory>
    ensures { OnOk result (out.new.items ≡ out.old.items ++ in_bytes units.now) }
{
    for unit in units {
        push_unit(out, *unit)?;
    }
    Ok(())
}

fn push_escape(out: &mut Vec<u8>, unit: u16) -> Result<(), NoMemory>
    ensures { OnOk result (out.new.items ≡ out.old.items ++ in_bytes (escaped_char unit)) }
{
    match unit {
        34 => push_ascii(out, b"&quot;"),
        38 => push_ascii(out, b"&amp;"),
        39 => push_ascii(out, b"&apos;"),
        60 => push_ascii(out, b"&lt;"),
        62 => push_ascii(out, b"&gt;"),
        _ => push_units(out, &[unit]),
    }
}

/// Whether a code unit is written as itself.
fn is_plain(unit: u16) -> bool
    ensures { IsTrue result → escaped_char unit ≡ unit ∷ [] }
{
    if unit > 62 {
        true
    } else {
        match unit {
            34 | 38 | 39 | 60 | 62 => false,
            _ => true,
        }
    }
}

fn are_plain(a: u16, b: u16, c: u16, d: u16) -> bool
    ensures { IsTrue result → escaped (a ∷ b ∷ c ∷ d ∷ []) ≡ a ∷ b ∷ c ∷ d ∷ [] }
{
    is_plain(a) && is_plain(b) && is_plain(c) && is_plain(d)
}

fn push_each_escaped(out: &mut Vec<u8>, units: &[u16]) -> Result<(), NoMemory>
    ensures { OnOk result (out.new.items ≡ out.old.items ++ in_bytes (escaped units.now)) }
{
    for unit in units {
        push_escape(out, *unit)?;
    }
    Ok(())
}

/// Appends four code units of a text at once where each is written as itself.
fn push_four_escaped(out: &mut Vec<u8>, a: u16, b: u16, c: u16, d: u16) -> Result<(), NoMemory>
    ensures { OnOk result (out.new.items ≡ out.old.items ++ in_bytes (escaped (a ∷ b ∷ c ∷ d ∷ []))) }
{
    if are_plain(a, b, c, d) {
        push_four(out, a, b, c, d)
    } else {
        push_each_escaped(out, &[a, b, c, d])
    }
}

fn behind(units: &[u16], at: usize) -> &[u16]
    requires { at ≤ length units.now }
    ensures { result.now ≡ drop at units.now }
{
    &units[at..]
}

/// Appends the code units of a text, the five characters `<` `>` `&` `"` `'` as their named references.
pub fn push_escaped(out: &mut Vec<u8>, units: &[u16]) -> Result<(), NoMemory>
    ensures { OnOk result (out.new.items ≡ out.old.items ++ in_bytes (escaped units.now)) }
{
    let mut at = 0;
    'four: while units.len() - at >= 4 {
        push_four_escaped(out, units[at], units[at + 1], units[at + 2], units[at + 3])?;
        at += 4;
    }
    push_each_escaped(out, behind(units, at))
}
