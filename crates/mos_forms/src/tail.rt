//! The rest of a raw element behind its start tag.
ghost use Rattle.std.specs.Prelude.{◌≡◌, ◌≢◌, ◌++◌, ◌+◌, ◌<◌, ◌≤◌, ℕ, List, IfOk, true, false, MatchOption, take, drop, length, []};
ghost use Rattle.mos_fields.specs.Characters.{IsUtf16, chars_of};
ghost use Rattle.mos_fields.specs.Names.{is_name};
ghost use Rattle.mos_fields.specs.Raw.{end_text, ends_with, is_tail as is_tail_of};
ghost use Rattle.mos_forms.specs.Tails.{IsNoEnd, tail_units};

use mos_fields::{NoMemory, Text};
use std::alloc::Global;

/// What stands before this end of a text, where it ends so.
fn without_end<'a>(text: &'a [u16], end: &[u16]) -> Option<&'a [u16]>
    ensures { MatchOption result ((front : List ℕ) → text.now ≢ front ++ end.now) (λ x. text.now ≡ x.now ++ end.now) }
{
    text.strip_suffix(end)
}

/// Whether the text ends with the end tag of this name.
fn ends_with_end_tag(name: &[u16], text: &[u16]) -> bool
    ensures { result ≡ ends_with (end_text name.now) text.now }
{
    match without_end(text, &[62]) {
        None => false,
        Some(front) => match without_end(front, name) {
            None => false,
            Some(front) => match without_end(front, &[60, 47]) {
                None => false,
                Some(_) => true,
            },
        },
    }
}

fn front(text: &[u16], end: usize) -> &[u16]
    requires { end ≤ length text.now }
    ensures { result.now ≡ take end text.now }
{
    &text[..end]
}

/// At none of the 8 places from `from` on an end tag ends: none has a `>`, and a `/` so far before it as an end tag has. A
/// test with no branch, of which LLVM makes vectors.
fn has_no_end(text: &[u16], back: usize, from: usize) -> bool
    requires behind { back ≤ from }
    requires within { from + 8 ≤ length text.now }
    ensures { result ≡ true → (k : ℕ) → from ≤ k → k < from + 8 → IsNoEnd text.now back k }
{
    let mut found = false;
    for k in from..from + 8 {
        found |= (text[k] == 62) & (text[k - back] == 47);
    }
    !found
}

/// Whether there is a `>` at this place, and a `/` so far before it.
fn may_end(text: &[u16], back: usize, place: usize) -> bool
    requires behind { back ≤ place }
    requires within { place < length text.now }
    ensures { result ≡ false → IsNoEnd text.now back place }
{
    text[place] == 62 && text[place - back] == 47
}

/// The first place from `from` on at which an end tag may end, whose `/` stands so far before its `>`; else the end of
/// the text.
fn next_end(text: &[u16], back: usize, from: usize) -> usize
    requires within { from ≤ length text.now }
    requires behind { back ≤ from }
    ensures within { result ≤ length text.now }
    ensures onward { from ≤ result }
    ensures none { (k : ℕ) → from ≤ k → k < result → IsNoEnd text.now back k }
{
    let mut n = from;
    while text.len() - n >= 8 {
        if !has_no_end(text, back, n) {
            break;
        }
        n += 8;
    }
    while n < text.len() {
        if may_end(text, back, n) {
            break;
        }
        n += 1;
    }
    n
}

/// Whether the end tag of this name ends with the unit at this place.
fn ends_at(name: &[u16], text: &[u16], place: usize) -> bool
    requires { place < length text.now }
    ensures { result ≡ ends_with (end_text name.now) (take (place + 1) text.now) }
{
    ends_with_end_tag(name, front(text, place + 1))
}

/// Reads on to the next place at which the end tag of this name may end, and none ends before it.
fn skip_to_end(name: &[u16], text: &[u16], from: usize) -> usize
    requires { from ≤ length text.now }
    ensures within { result ≤ length text.now }
    ensures onward { from ≤ result }
    ensures same { tail_units name.now (take from text.now) (drop from text.now) ≡ tail_units name.now (take result text.now) (drop result text.now) }
{
    let back = name.len() + 1;
    if text.len() < back {
        text.len()
    } else {
        next_end(text, back, from.max(back))
    }
}

fn is_tail_by_units(name: &[u16], text: &[u16]) -> bool
    ensures { result ≡ tail_units name.now [] text.now }
{
    let mut end = skip_to_end(name, text, 0);
    while end < text.len() {
        if ends_at(name, text, end) {
            return end + 1 == text.len();
        }
        end = skip_to_end(name, text, end + 1);
    }
    false
}

/// Whether this is what stands behind the start tag of a raw element with this name: everything up to its first end tag
/// that is written without white space.
#[tactic(auto, using(crate::proofs::TailLemmas::tail_by_units))]
pub fn is_tail(name: &[u16], text: &[u16]) -> bool
    requires named { is_name name.now ≡ true }
    requires written { IsUtf16 text.now }
    ensures { result ≡ is_tail_of name.now (chars_of text.now) }
{
    is_tail_by_units(name, text)
}

fn units_behind(alloc: Global, units: &[u16], more: &[u16]) -> Result<Vec<u16>, NoMemory>
    ensures { IfOk result (λ v. v.items ≡ units.now ++ more.now) }
{
    let mut both = Vec::with_capacity(alloc, units.len().saturating_add(more.len()))?;
    both.extend_from_slice(units)?;
    both.extend_from_slice(more)?;
    Ok(both)
}

/// A text and what follows it, as one text. The only error is that memory runs out.
pub fn join(alloc: Global, text: &Text, more: &[u16]) -> Result<Text, NoMemory>
    requires { IsUtf16 more.now }
    ensures { IfOk result (λ t. t ≡ text.now ++ chars_of more.now) }
{
    let both = units_behind(alloc, text.units(), more)?;
    Ok(Text::from_vec(both))
}
