//! Counts of faults.
ghost use Rattle.std.specs.Prelude.{◌≤◌};
ghost use Rattle.mos_io.specs.Counts.{Rose};

/// Counts one more, and stays at 2^64 - 1.
pub(crate) fn count_one(count: &mut u64)
    ensures rose { Rose count.old count.new }
    ensures rises { count.old ≤ count.new }
{
    *count = count.saturating_add(1);
}
