//! What a tag shows by the fields that were seen.
ghost use Rattle.std.specs.Prelude.{◌≡◌, ◌≤◌, ◌&&◌, List, cond, drop, length, nat_lt, take, MatchOption, Some, None};
ghost use Rattle.mos_fields.specs.declared.field.Field.{Field as FieldOf};
ghost use Rattle.mos_tables.specs.Tables.{columns as columns_of, ack_columns as ack_columns_of};
ghost use Rattle.mos_grammar.specs.Records.{column_of, is_named as is_named_of, field_fault, wanted, lacking as lacking_of, lack_of, least_count as least_count_of, is_single as is_single_of, or_else};
ghost use Rattle.mos_grammar.specs.declared.fault.Fault.TheVariants.{Twice as twice, Order as out_of_order};
ghost use Rattle.mos_columns.specs.Counts.{counts_of, any_counted as any_counted_of, head_lack as head_lack_of, head_of, head_repeated, lack_place, lacking_by, place_of, tag_fault_by, end_fault_by};

use crate::names::has_name;
use mos_fields::{Field, Form};
use mos_grammar::Fault;
use mos_tables::{Column, Often, Shape, Table};

fn is_named(column: &Column, name: &[u16]) -> bool
    ensures { result ≡ is_named_of column.now name.now }
{
    match column.shape {
        Shape::Message => true,
        Shape::Leaf(_) | Shape::Raw | Shape::Record(_) => has_name(column.field, name),
    }
}

/// Where the column of an element with this name stands; behind all columns where the table has none.
fn find_place(columns: &[Column], name: &[u16]) -> usize
    ensures within { result ≤ length columns.now }
    ensures place { result ≡ place_of columns.now name.now }
{
    match columns {
        [] => 0,
        [c, cs @ ..] => {
            if is_named(c, name) {
                0
            } else {
                1 + find_place(cs, name)
            }
        }
    }
}

fn any_counted(counts: &[usize]) -> bool
    ensures { result ≡ any_counted_of counts.now }
{
    match counts {
        [] => false,
        [k, ks @ ..] => *k > 0 || any_counted(ks),
    }
}

fn lack(field: Field) -> Fault
    ensures { result ≡ lack_of field }
{
    match field {
        Field::Message => Fault::Tag,
        _ => Fault::Missing(field),
    }
}

fn lacks(column: &Column, count: usize) -> bool
    ensures { result ≡ nat_lt count (least_count_of (column.now).often) }
{
    match column.often {
        Often::One | Often::Many => count < 1,
        Often::Optional | Often::Any => false,
        Often::Count(least) => count < usize::from(least),
    }
}

/// Where the first required field that lacks stands; behind all columns where none lacks.
fn find_lack(columns: &[Column], counts: &[usize]) -> usize
    ensures within { result ≤ length columns.now }
    ensures place { result ≡ lack_place columns.now counts.now }
{
    match columns {
        [] => 0,
        [c, cs @ ..] => match counts {
            [] => columns.len(),
            [k, ks @ ..] => {
                if lacks(c, *k) {
                    0
                } else {
                    1 + find_lack(cs, ks)
                }
            }
        },
    }
}

/// What stands behind so many columns.
fn columns_behind(columns: &[Column], at: usize) -> &[Column]
    requires { at ≤ length columns.now }
    ensures { result.now ≡ drop at columns.now }
{
    &columns[at..]
}

/// The lack of the first of these columns, if there is one.
fn head_lack(columns: &[Column]) -> Option<Fault>
    ensures { result ≡ head_lack_of columns.now }
{
    match columns {
        [] => None,
        [c, ..] => Some(lack(c.field)),
    }
}

/// The first required field that lacks.
#[tactic(auto, using(crate::proofs::PlaceLaws::lack_is))]
fn lacking(columns: &[Column], counts: &[usize]) -> Option<Fault>
    ensures { result ≡ lacking_by columns.now counts.now }
{
    head_lack(columns_behind(columns, find_lack(columns, counts)))
}

fn is_single(often: Often) -> bool
    ensures { result ≡ is_single_of often }
{
    match often {
        Often::One | Often::Optional => true,
        Often::Any | Often::Many | Often::Count(_) => false,
    }
}

/// What a field of this column shows that is seen again or too late.
fn repeated_here(column: &Column, count: usize, later: &[usize]) -> Option<Fault>
    ensures { result ≡ cond (is_single_of (column.now).often && nat_lt 0 count) (Some (twice (column.now).field)) (cond (any_counted_of later.now) (Some (out_of_order (column.now).field)) None) }
{
    if is_single(column.often) && count > 0 {
        Some(Fault::Twice(column.field))
    } else if any_counted(later) {
        Some(Fault::Order(column.field))
    } else {
        None
    }
}

/// What a field of the first of these columns shows that is seen again or too late.
fn repeated(columns: &[Column], counts: &[usize]) -> Option<Fault>
    ensures { result ≡ head_repeated columns.now counts.now }
{
    match columns {
        [] => None,
        [c, ..] => match counts {
            [] => None,
            [k, ks @ ..] => repeated_here(c, *k, ks),
        },
    }
}

/// What stands behind so many counts, nothing where there are fewer.
#[tactic(auto, using(crate::proofs::PlaceLaws::nothing_behind))]
fn counts_behind(counts: &[usize], at: usize) -> &[usize]
    ensures { result.now ≡ drop at counts.now }
{
    if at <= counts.len() {
        &counts[at..]
    } else {
        &counts[counts.len()..]
    }
}

/// The columns in front of a place.
fn columns_before(columns: &[Column], at: usize) -> &[Column]
    requires { at ≤ length columns.now }
    ensures { result.now ≡ take at columns.now }
{
    &columns[..at]
}

/// What a field of the column at a place shows: that it is seen again or too late, or what lacks before it.
fn fault_at(columns: &[Column], counts: &[usize], at: usize) -> Option<Fault>
    requires { at ≤ length columns.now }
    ensures { result ≡ or_else (head_repeated (drop at columns.now) (drop at counts.now)) (lacking_by (take at columns.now) counts.now) }
{
    match repeated(columns_behind(columns, at), counts_behind(counts, at)) {
        Some(fault) => Some(fault),
        None => lacking(columns_before(columns, at), counts),
    }
}

fn head(columns: &[Column]) -> Option<Column>
    ensures { result ≡ head_of columns.now }
{
    match columns {
        [] => None,
        [c, ..] => Some(*c),
    }
}

/// The column at a place, if one stands there, and what its tag shows.
fn shown_at(columns: &[Column], counts: &[usize], at: usize) -> Option<(Column, Option<Fault>)>
    requires { at ≤ length columns.now }
    ensures { MatchOption result (head_of (drop at columns.now) ≡ None) (λ r. (head_of (drop at columns.now) ≡ Some r.0) × (r.1 ≡ or_else (head_repeated (drop at columns.now) (drop at counts.now)) (lacking_by (take at columns.now) counts.now))) }
{
    match head(columns_behind(columns, at)) {
        None => None,
        Some(column) => Some((column, fault_at(columns, counts, at))),
    }
}

/// The column of an element with this name, if the table has one, and what its tag shows.
fn find_shown(columns: &[Column], counts: &[usize], name: &[u16]) -> Option<(Column, Option<Fault>)>
    ensures { MatchOption result (column_of columns.now name.now ≡ None) (λ r. (column_of columns.now name.now ≡ Some r.0) × (r.1 ≡ tag_fault_by columns.now counts.now name.now)) }
{
    shown_at(columns, counts, find_place(columns, name))
}

/// The column of an element with this name, if the table has one, and what its tag shows behind the fields seen, which the
/// counts count: that it was there already, that a later field was there, or the first required field before it that lacks.
pub fn find_tag(
    columns: &[Column],
    counts: &[usize],
    name: &[u16],
) -> Option<(Column, Option<Fault>)>
    ensures { (seen : List FieldOf) → counts.now ≡ counts_of columns.now seen → MatchOption result (column_of columns.now name.now ≡ None) (λ r. (column_of columns.now name.now ≡ Some r.0) × (r.1 ≡ field_fault columns.now seen name.now)) }
{
    find_shown(columns, counts, name)
}

fn has_group(counts: &[usize]) -> bool
    ensures { result ≡ any_counted_of (drop 2 counts.now) }
{
    match counts {
        [] => false,
        [_] => false,
        [_, _, ks @ ..] => any_counted(ks),
    }
}

/// The fields of roAck that stand before its groups.
static ACK: [Column; 2] = [
    Column {
        field: Field::RoID,
        shape: Shape::Leaf(Form::OptId),
        often: Often::One,
    },
    Column {
        field: Field::RoStatus,
        shape: Shape::Leaf(Form::Slug),
        often: Often::One,
    },
];

fn ack_columns() -> &'static [Column]
    ensures { result.now ≡ ack_columns_of }
{
    &ACK
}

fn end_fault(table: Table, counts: &[usize]) -> Option<Fault>
    ensures { result ≡ end_fault_by table counts.now }
{
    if table.has_groups() && !has_group(counts) {
        lacking(ack_columns(), counts)
    } else {
        lacking(table.columns(), counts)
    }
}

/// What the end tag of a record shows behind the fields seen, which the counts count: the first required field that
/// lacks. Of roAck the fields of a group are wanted only where one of them was there.
pub fn find_end_fault(table: Table, counts: &[usize]) -> Option<Fault>
    ensures { (seen : List FieldOf) → counts.now ≡ counts_of (columns_of table) seen → result ≡ lacking_of (wanted table seen) seen }
{
    end_fault(table, counts)
}
