//! Elements that a table does not name.
ghost use Rattle.std.specs.Prelude.{◌≡◌};
ghost use Rattle.mos_tables.specs.Tables.{others as others_by_name, others_of as others_of_lem};

use mos_columns::is_name;
use mos_tables::{Others, Table};

fn others_of(table: Table) -> Others
    ensures { result ≡ others_of_lem table }
{
    match table {
        Table::Body
        | Table::HeaderPatch
        | Table::Story
        | Table::Item
        | Table::MosObj
        | Table::ListMachInfo
        | Table::StorySend => Others::Kept,
        Table::SupportedProfiles | Table::Target(_) | Table::Source(_, _) => Others::Refused,
        _ => Others::Dropped,
    }
}

fn in_header(name: &[u16]) -> Others
    ensures { result ≡ others_by_name Table.HeaderPatch name.now }
{
    if is_name("story", name) {
        Others::Refused
    } else {
        Others::Kept
    }
}

/// What becomes of an element with this name, which the table does not name.
pub fn others(table: Table, name: &[u16]) -> Others
    ensures { result ≡ others_by_name table name.now }
{
    match table {
        Table::HeaderPatch => in_header(name),
        _ => others_of(table),
    }
}
