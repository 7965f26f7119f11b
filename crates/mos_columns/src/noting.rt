//! Counting the fields that were seen.
ghost use Rattle.std.specs.Prelude.{◌≡◌, ◌≤◌, ◌+◌, ◌++◌, List, [], IfOk, OnOk, cond, drop, length, nat_lt, take, true};
ghost use Rattle.mos_fields.specs.declared.field.Field.{Field as FieldOf};
ghost use Rattle.mos_tables.specs.Tables.{columns as columns_of};
ghost use Rattle.mos_grammar.specs.Records.{seen_behind};
ghost use Rattle.mos_fields.specs.Fields.{same_field as same_field_of, number_of};
ghost use Rattle.mos_columns.specs.Counts.{bumped, counts_of, may_grow as may_grow_of, noted_by, own_count as own_count_of, restarted};

use mos_fields::{Field, NoMemory};
use mos_tables::{Column, Table};
use std::alloc::Global;

fn number(field: Field) -> u8
    ensures { result ≡ number_of field }
{
    field as u8
}

fn same_field(a: Field, b: Field) -> bool
    ensures { result ≡ same_field_of a b }
{
    number(a) == number(b)
}

fn push_zeros(columns: &[Column], out: &mut Vec<usize>) -> Result<(), NoMemory>
    ensures { OnOk result (out.new.items ≡ out.old.items ++ counts_of columns.now []) }
{
    match columns {
        [] => Ok(()),
        [_, cs @ ..] => {
            out.push(0)?;
            push_zeros(cs, out)
        }
    }
}

/// Makes these the counts of a record that has seen no field, whatever they were. The only error is that memory runs out.
pub fn restart_counts(columns: &[Column], counts: &mut Vec<usize>) -> Result<(), NoMemory>
    ensures { OnOk result (counts.new.items ≡ counts_of columns.now []) }
{
    counts.clear();
    counts.reserve(columns.len())?;
    push_zeros(columns, counts)
}

/// The counts of a record that has seen no field. The only error is that memory runs out.
pub fn start_counts(alloc: Global, columns: &[Column]) -> Result<Vec<usize>, NoMemory>
    ensures { IfOk result (λ v. v.items ≡ counts_of columns.now []) }
{
    let mut counts = Vec::new(alloc);
    restart_counts(columns, &mut counts)?;
    Ok(counts)
}

/// The count of a column that may grow, behind a field.
fn counted(column: &Column, count: usize, field: Field) -> usize
    requires { nat_lt count 18446744073709551615 ≡ true }
    ensures { result ≡ cond (same_field_of (column.now).field field) (count + 1) count }
{
    if same_field(column.field, field) {
        count + 1
    } else {
        count
    }
}

/// Counts a field in these columns, whose counts stand from `at` on.
fn bump(columns: &[Column], counts: &mut [usize], at: usize, field: Field)
    requires within { at ≤ length counts.old }
    requires room { may_grow_of (drop at counts.old) ≡ true }
    ensures { counts.new ≡ take at counts.old ++ bumped columns.now (drop at counts.old) field }
{
    match columns {
        [] => {}
        [c, cs @ ..] => {
            if at < counts.len() {
                counts[at] = counted(c, counts[at], field);
                bump(cs, counts, at + 1, field);
            }
        }
    }
}

/// How often a field stands among the own fields of roAck.
#[tactic(auto, unfolding(crate::specs::Counts::own_count))]
fn own_count(field: Field) -> usize
    ensures { result ≡ own_count_of field }
{
    usize::from(same_field(field, Field::RoID)) + usize::from(same_field(field, Field::RoStatus))
}

/// The count of a column in front of the groups, whatever it was.
fn count_anew(column: &Column, count: usize) -> usize
    ensures { result ≡ own_count_of (column.now).field }
{
    let _ = count;
    own_count(column.field)
}

/// The own fields of roAck alone count in these columns, whose counts stand from `at` on.
fn restart(columns: &[Column], counts: &mut [usize], at: usize)
    requires { at ≤ length counts.old }
    ensures { counts.new ≡ take at counts.old ++ restarted columns.now (drop at counts.old) }
{
    match columns {
        [] => {}
        [c, cs @ ..] => {
            if at < counts.len() {
                counts[at] = count_anew(c, counts[at]);
                restart(cs, counts, at + 1);
            }
        }
    }
}

fn is_status(field: Field) -> bool
    ensures { result ≡ same_field_of field Field.Status }
{
    same_field(field, Field::Status)
}

fn noted(table: Table, counts: &mut [usize], field: Field)
    requires { may_grow_of counts.old ≡ true }
    ensures { counts.new ≡ noted_by table counts.old field }
{
    if table.has_groups() && is_status(field) {
        restart(table.columns(), counts, 0);
    } else {
        bump(table.columns(), counts, 0, field);
    }
}

/// Counts one more field, where the counts count the fields seen. Behind the status of a group of roAck the group's fields
/// count no more. It takes no memory.
pub fn note(table: Table, counts: &mut [usize], field: Field)
    requires { may_grow_of counts.old ≡ true }
    ensures { (seen : List FieldOf) → counts.old ≡ counts_of (columns_of table) seen → counts.new ≡ counts_of (columns_of table) (seen_behind table seen field) }
{
    noted(table, counts, field)
}
