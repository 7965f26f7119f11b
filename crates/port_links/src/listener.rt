//! Connections that others open.
ghost use Rattle.std.specs.Prelude.{◌≡◌, ℕ, ◌≤◌, Option, IfOk, OnErr};
ghost use Rattle.mos_io.specs.Counts.{Rose};
ghost use Rattle.port_links.specs.Links.{Accepts};

use crate::link::Link;
use mos_io::{Failed, Sink, Source};

/// Accepts connections.
///
/// A listener may be observable: its ghost state `coming` is then the number of connections that are still to come.
/// `faults` counts the calls that failed, and never falls.
pub trait Listener: Drop {
    type S: Source + Drop;

    type K: Sink + Drop;

    ghost coming: { Self → Option ℕ };

    ghost faults: { Self → ℕ };

    /// The next connection; None where no further one comes, so where it is told exactly at 0 still to come. `Failed`
    /// comes only where the count of faults rises; those that are still to come are then the same.
    fn accept(&mut self) -> Result<Option<Link<Self::S, Self::K>>, Failed>
        ensures gives { IfOk result (λ link. Accepts (coming self.old) (coming self.new) link) }
        ensures rises { faults self.old ≤ faults self.new }
        ensures failed { OnErr result (Rose (faults self.old) (faults self.new)) }
        ensures kept { OnErr result (coming self.new ≡ coming self.old) };
}
