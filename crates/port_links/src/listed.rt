//! What the forms in memory share.
ghost use Rattle.std.specs.Prelude.{◌≡◌, IfErr};
ghost use Rattle.mos_io.specs.Memory.{is_listed as is_listed_in};
ghost use Rattle.port_links.specs.Memory.{Hands};

use std::collections::VecDeque;

/// Whether the number stands in the list.
pub(crate) fn is_listed(number: u64, list: &[u64]) -> bool
    ensures { result ≡ is_listed_in number list.now }
{
    list.contains(&number)
}

/// Takes out the first one.
pub(crate) fn take_first<X: Drop>(list: &mut VecDeque<X>) -> Option<X>
    ensures { Hands list.old.items list.new.items result }
{
    list.pop_front()
}
