//! Runs of code units that stand for themselves.
ghost use Rattle.std.specs.Prelude.{◌≡◌, ◌≤◌, ◌<◌, ◌+◌, ◌-◌, ◌&&◌, not, ℕ, length, slice_index, true};
ghost use Rattle.mos_fields.specs.Names.{is_further as is_further_of};
ghost use Rattle.mos_scanner.specs.Runs.{is_plain_but};

/// The unit is no allowed character by itself, or one of these three.
#[inline(always)]
fn is_special(u: u16, p: u16, q: u16, r: u16) -> bool
    ensures { result ≡ not (is_plain_but p q r u) }
{
    u < 0x20 || u > 0xD7FF || u == p || u == q || u == r
}

/// The unit is an allowed character by itself, and none of these two.
#[inline(always)]
pub fn is_plain(u: u16, p: u16, q: u16) -> bool
    ensures { result ≡ is_plain_but p q q u }
{
    !is_special(u, p, q, q)
}

/// The unit ends a run of a text: `<`, `&`, or no allowed character by itself. Letters are most of them.
#[inline(always)]
fn ends_text(u: u16) -> bool
    ensures { result ≡ not (is_plain_but 60 38 38 u) }
{
    if u > 60 {
        u > 0xD7FF
    } else {
        u == 60 || u == 38 || u < 0x20
    }
}

/// None of the 8 units from `from` on ends a run of a text: a test with no branch, of which LLVM makes vectors.
#[inline(always)]
fn is_text_block(s: &[u16], from: usize) -> bool
    requires { from + 8 ≤ length s.now }
    ensures { result ≡ true → (k : ℕ) → from ≤ k → k < from + 8 → is_plain_but 60 38 38 (slice_index s.now k) ≡ true }
{
    let mut hit = false;
    for k in 0..8 {
        hit |= is_special(s[from + k], 60, 38, 38);
    }
    !hit
}

/// The same for the rest of a raw element.
#[inline(always)]
fn is_tail_block(s: &[u16], from: usize) -> bool
    requires { from + 8 ≤ length s.now }
    ensures { result ≡ true → (k : ℕ) → from ≤ k → k < from + 8 → is_plain_but 62 62 62 (slice_index s.now k) ≡ true }
{
    let mut hit = false;
    for k in 0..8 {
        hit |= is_special(s[from + k], 62, 62, 62);
    }
    !hit
}

/// How many of the four units from `from` on stand before the first that ends a run of a text.
#[inline(always)]
fn text_of_four(s: &[u16], from: usize) -> usize
    requires { from + 4 ≤ length s.now }
    ensures few { result ≤ 4 }
    ensures plain { (k : ℕ) → from ≤ k → k < from + result → is_plain_but 60 38 38 (slice_index s.now k) ≡ true }
{
    let mut count = 0;
    while count < 4 {
        if ends_text(s[from + count]) {
            break;
        }
        count += 1;
    }
    count
}

/// The end of a run of units of a text, looked at in blocks.
fn long_text_end(s: &[u16], from: usize) -> usize
    requires { from ≤ length s.now }
    ensures within { result ≤ length s.now }
    ensures onward { from ≤ result }
    ensures plain { (k : ℕ) → from ≤ k → k < result → is_plain_but 60 38 38 (slice_index s.now k) ≡ true }
{
    let mut n = from;
    while s.len() - n >= 8 {
        if !is_text_block(s, n) {
            break;
        }
        n += 8;
    }
    'last: while n < s.len() {
        if ends_text(s[n]) {
            break;
        }
        n += 1;
    }
    n
}

/// The end of a run of units of a text. Short runs are most of them, and end before a block is looked at.
pub fn text_end(s: &[u16], from: usize) -> usize
    requires { from ≤ length s.now }
    ensures within { result ≤ length s.now }
    ensures onward { from ≤ result }
    ensures plain { (k : ℕ) → from ≤ k → k < result → is_plain_but 60 38 38 (slice_index s.now k) ≡ true }
{
    if s.len() - from >= 4 {
        let count = text_of_four(s, from);
        if count < 4 {
            return from + count;
        }
    }
    long_text_end(s, from)
}

/// The end of a run of units of the rest of a raw element, looked at in blocks unless it has no unit.
pub fn tail_end(s: &[u16], from: usize) -> usize
    requires { from ≤ length s.now }
    ensures within { result ≤ length s.now }
    ensures onward { from ≤ result }
    ensures plain { (k : ℕ) → from ≤ k → k < result → is_plain_but 62 62 62 (slice_index s.now k) ≡ true }
{
    if from < s.len() && is_special(s[from], 62, 62, 62) {
        return from;
    }
    let mut n = from;
    while s.len() - n >= 8 {
        if !is_tail_block(s, n) {
            break;
        }
        n += 8;
    }
    'last: while n < s.len() {
        if is_special(s[n], 62, 62, 62) {
            break;
        }
        n += 1;
    }
    n
}

/// The end of a run of units of a value with this quote.
pub fn value_end(s: &[u16], from: usize, quote: u16) -> usize
    requires { from ≤ length s.now }
    ensures within { result ≤ length s.now }
    ensures onward { from ≤ result }
    ensures plain { (k : ℕ) → from ≤ k → k < result → is_plain_but quote 38 60 (slice_index s.now k) ≡ true }
{
    let mut n = from;
    while n < s.len() {
        if is_special(s[n], quote, 38, 60) {
            break;
        }
        n += 1;
    }
    n
}

/// Where so many units from `from` on end, or what is held.
#[inline(always)]
fn end_within(s: &[u16], from: usize, most: usize) -> usize
    requires { from ≤ length s.now }
    ensures within { result ≤ length s.now }
    ensures onward { from ≤ result }
    ensures few { result ≤ from + most }
{
    if s.len() - from <= most {
        s.len()
    } else {
        from + most
    }
}

/// How many of the four units from `from` on stand before the first that is no letter.
#[inline(always)]
fn letters_of_four(s: &[u16], from: usize) -> usize
    requires { from + 4 ≤ length s.now }
    ensures few { result ≤ 4 }
    ensures named { (k : ℕ) → from ≤ k → k < from + result → is_further_of (slice_index s.now k) ≡ true }
{
    let mut count = 0;
    while count < 4 {
        if !is_letter(s[from + count]) {
            break;
        }
        count += 1;
    }
    count
}

/// The end of a run of letters from `from` on, before `end`.
#[inline(always)]
fn letters_end(s: &[u16], from: usize, end: usize) -> usize
    requires from { from ≤ end }
    requires end { end ≤ length s.now }
    ensures within { result ≤ end }
    ensures onward { from ≤ result }
    ensures named { (k : ℕ) → from ≤ k → k < result → is_further_of (slice_index s.now k) ≡ true }
{
    let mut n = from;
    'fours: while end - n >= 4 {
        let count = letters_of_four(s, n);
        n += count;
        if count < 4 {
            return n;
        }
    }
    'last: while n < end {
        if !is_letter(s[n]) {
            break;
        }
        n += 1;
    }
    n
}

/// The end of a run of at most so many units from `from` on that names go on with. Letters are most of them.
#[inline(always)]
pub fn name_end(s: &[u16], from: usize, most: usize) -> usize
    requires { from ≤ length s.now }
    ensures within { result ≤ length s.now }
    ensures onward { from ≤ result }
    ensures before { result ≤ from + most }
    ensures named { (k : ℕ) → from ≤ k → k < result → is_further_of (slice_index s.now k) ≡ true }
{
    let end = end_within(s, from, most);
    let mut n = letters_end(s, from, end);
    while n < end {
        if !is_further_unit(s[n]) {
            break;
        }
        n = letters_end(s, n + 1, end);
    }
    n
}

/// A letter of ASCII.
#[inline(always)]
fn is_letter(u: u16) -> bool
    ensures { result ≡ true → is_further_of u ≡ true }
{
    u >= 97 && u <= 122 || u >= 65 && u <= 90
}

/// What a name goes on with. `>` ends most names.
#[inline(always)]
fn is_further_unit(u: u16) -> bool
    ensures { result ≡ is_further_of u }
{
    if u == 62 {
        false
    } else {
        u >= 97 && u <= 122
            || u >= 65 && u <= 90
            || u == 95
            || u >= 48 && u <= 58
            || u == 45
            || u == 46
    }
}
