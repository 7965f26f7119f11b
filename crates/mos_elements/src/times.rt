//! How often a field was seen.
ghost use Rattle.std.specs.Prelude.{◌≡◌};
ghost use Rattle.mos_elements.specs.Opened.{times_by};

use crate::field_name::is_named;
use mos_tables::Column;

/// How often the field of the column with this name was seen, by the counts of all columns.
pub fn times(columns: &[Column], counts: &[usize], name: &[u16]) -> usize
    ensures { result ≡ times_by columns.now counts.now name.now }
{
    match columns {
        [] => 0,
        [c, cs @ ..] => match counts {
            [] => 0,
            [k, ks @ ..] => {
                if is_named(c, name) {
                    *k
                } else {
                    times(cs, ks, name)
                }
            }
        },
    }
}
