//! Fields and names of elements.
ghost use Rattle.std.specs.Prelude.{◌≡◌};
ghost use Rattle.mos_fields.specs.Fields.{same, same_field as same_field_of, number_of};
ghost use Rattle.mos_grammar.specs.Records.{is_named as is_named_of};

use mos_columns::is_name;
use mos_fields::Field;
use mos_tables::{Column, Shape};

fn number(field: Field) -> u8
    ensures { result ≡ number_of field }
{
    field as u8
}

/// Whether one field is the other.
pub fn same_field(a: Field, b: Field) -> bool
    ensures { result ≡ same_field_of a b }
{
    number(a) == number(b)
}

/// Whether one name is the other.
pub fn same_name(a: &[u8], b: &[u8]) -> bool
    ensures { result ≡ same a.now b.now }
{
    match a {
        [] => b.is_empty(),
        [x, xs @ ..] => match b {
            [] => false,
            [y, ys @ ..] => *x == *y && same_name(xs, ys),
        },
    }
}

/// Whether an element of this name is of the column.
pub fn is_named(column: &Column, name: &[u16]) -> bool
    ensures { result ≡ is_named_of column.now name.now }
{
    match column.shape {
        Shape::Message => true,
        Shape::Leaf(_) | Shape::Raw | Shape::Record(_) => is_name(column.field.name(), name),
    }
}
