//! Where a row stands.
ghost use Rattle.std.specs.Prelude.{◌≡◌, ◌≤◌, length};
ghost use Rattle.mos_edits.specs.Texts.{same_id};
ghost use Rattle.mos_edits.specs.Entries.{is_before as is_before_of};
ghost use Rattle.mos_edits.specs.Rows.{row_ids};
ghost use Rattle.order_table.specs.Rows.{IsAscending, count_before};

use mos_fields::{Id, Text};
use std::cmp::Ordering;

// Whether a roID stands before a text.
pub fn is_before(a: &Id, b: &Text) -> bool
    ensures { result ≡ is_before_of a.now b.now }
{
    match a.text().cmp(b) {
        Ordering::Less => true,
        _ => false,
    }
}

/// Whether two roIDs are one.
pub fn is_same(a: &Id, b: &Id) -> bool
    ensures { result ≡ same_id a.now b.now }
{
    a.is(b)
}

// Whether a text is this roID.
pub fn is_text_of(a: &Text, b: &Id) -> bool
    ensures { result ≡ same_id a.now b.now }
{
    a.is(b.text())
}

// How many rows stand before this roID. The rows that aren't looked at yet are halved at each look.
pub fn place_of<T>(rows: &[(Id, T)], ro: &Text) -> usize
    requires { IsAscending (row_ids rows.now) }
    ensures place { result ≡ count_before ro.now (row_ids rows.now) }
    ensures within { result ≤ length rows.now }
{
    let mut low = 0;
    let mut high = rows.len();
    'halves: while low < high {
        let middle = low + (high - low) / 2;
        if is_before(&rows[middle].0, ro) {
            low = middle + 1;
        } else {
            high = middle;
        }
    }
    low
}
