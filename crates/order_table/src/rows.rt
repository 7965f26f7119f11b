//! Ascending rows: looking one up, writing one, and taking one out.
ghost use Rattle.std.specs.Prelude.{◌≡◌, ◌+◌, ◌<◌, ◌≤◌, [], ◌∷◌, ◌++◌, slice_get, IfOk, OnOk, OnErr, Some, IsSome, MatchResult, vec_len};
ghost use Rattle.std.specs.Option.{option_copied};
ghost use Rattle.std.specs.Vec.{vec_capacity};
ghost use Rattle.mos_edits.specs.Rows.{row_ids, put_row};
ghost use Rattle.order_table.specs.Rows.{IsAscending, find_row, is_row_of, IsThere, IsMissing, put_rows, without_rows};

use crate::place::{is_text_of, place_of};
use mos_fields::{Id, NoMemory, Text, let_go};
use mos_values::TryClone;
use std::alloc::Global;
use std::mem::swap;

// Whether the row at a place has this roID.
fn is_there<T>(rows: &[(Id, T)], place: usize, ro: &Text) -> bool
    ensures { result ≡ is_row_of ro.now (slice_get rows.now place) }
{
    match rows.get(place) {
        Some(row) => is_text_of(ro, &row.0),
        None => false,
    }
}

// The place of the row of this roID, or else the place that it would have.
pub fn search<T>(rows: &[(Id, T)], ro: &Text) -> Result<usize, usize>
    requires { IsAscending (row_ids rows.now) }
    ensures { MatchResult result (IsThere ro.now rows.now) (IsMissing ro.now rows.now) }
{
    let place = place_of(rows, ro);
    if is_there(rows, place, ro) {
        Ok(place)
    } else {
        Err(place)
    }
}

// The value in the row of this roID.
pub fn find_in<'a, T>(rows: &'a [(Id, T)], ro: &Text) -> Option<&'a T>
    requires { IsAscending (row_ids rows.now) }
    ensures { option_copied result ≡ find_row ro.now rows.now }
{
    match search(rows, ro) {
        Ok(place) => Some(&rows[place].1),
        Err(_) => None,
    }
}

// Exchanges the value in the row of this roID for another.
pub fn exchange_in<T>(rows: &mut [(Id, T)], ro: &Id, value: &mut T)
    requires ascending { IsAscending (row_ids rows.old) }
    requires there { IsSome (find_row ro.now rows.old) }
    ensures table { rows.new ≡ put_row ro.now value.old rows.old }
    ensures value { find_row ro.now rows.old ≡ Some value.new }
{
    if let Ok(place) = search(rows, ro.text()) {
        swap(&mut rows[place].1, value);
    }
}

// Puts a value into the row of this roID.
pub fn put_in<T: Drop>(rows: &mut Vec<(Id, T)>, ro: &Id, value: T) -> Result<(), NoMemory>
    requires { IsAscending (row_ids rows.old.items) }
    ensures ok { OnOk result (rows.new.items ≡ put_row ro.now value rows.old.items) }
    ensures err { OnErr result (rows.new.items ≡ rows.old.items) }
{
    match search(rows, ro.text()) {
        Ok(place) => rows[place].1 = value,
        Err(place) => rows.insert(place, (ro.try_clone()?, value))?,
    }
    Ok(())
}

// Takes out the row of this roID, where there is one.
pub fn remove_in<T: Drop>(rows: &mut Vec<(Id, T)>, ro: &Text)
    requires { IsAscending (row_ids rows.old.items) }
    ensures { rows.new.items ≡ without_rows (ro.now ∷ []) rows.old.items }
{
    match search(rows, ro) {
        Ok(place) => let_go(rows.remove(place)),
        Err(_) => {}
    }
}

// A copy of a row at the end.
fn push_copy<T: TryClone>(rows: &mut Vec<(Id, T)>, row: &(Id, T)) -> Result<(), NoMemory>
    ensures { OnOk result (rows.new.items ≡ rows.old.items ++ row.now ∷ []) }
{
    rows.push((row.0.try_clone()?, row.1.try_clone()?))?;
    Ok(())
}

// The same rows again.
pub fn copies_of<T: TryClone>(alloc: Global, rows: &[(Id, T)]) -> Result<Vec<(Id, T)>, NoMemory>
    ensures { IfOk result (λ v. v.items ≡ rows.now) }
{
    let mut copies = Vec::with_capacity(alloc, rows.len())?;
    for row in rows {
        push_copy(&mut copies, row)?;
    }
    Ok(copies)
}

// Puts a value into the row of this roID, where there is room for one more row.
fn put_within<T: Drop>(rows: &mut Vec<(Id, T)>, ro: Id, value: T)
    requires ascending { IsAscending (row_ids rows.old.items) }
    requires room { vec_len rows.old < vec_capacity rows.old }
    ensures items { rows.new.items ≡ put_row ro value rows.old.items }
    ensures len { vec_len rows.new ≤ vec_len rows.old + 1 }
    ensures capacity { vec_capacity rows.old ≤ vec_capacity rows.new }
{
    match search(rows, ro.text()) {
        Ok(place) => rows[place].1 = value,
        Err(place) => rows.insert(place, (ro, value)).unwrap(),
    }
}

// Puts values into the rows of their roIDs, one after the other: all of them, or none without memory for all.
pub fn put_all_in<T: Drop>(rows: &mut Vec<(Id, T)>, new: Vec<(Id, T)>) -> Result<(), NoMemory>
    requires { IsAscending (row_ids rows.old.items) }
    ensures ok { OnOk result (rows.new.items ≡ put_rows new.items rows.old.items) }
    ensures err { OnErr result (rows.new.items ≡ rows.old.items) }
{
    rows.reserve(new.len())?;
    for (ro, value) in new {
        put_within(rows, ro, value);
    }
    Ok(())
}
