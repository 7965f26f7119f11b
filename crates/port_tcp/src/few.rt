//! Listeners that end.
ghost use Rattle.std.specs.Prelude.{◌≡◌, ◌+◌, ◌≤◌, ◌≢◌, None, Ok, IfOk, OnErr};
ghost use Rattle.mos_io.specs.Counts.{Rose};
ghost use Rattle.port_links.specs.Links.{Accepts};
ghost use Rattle.port_tcp.specs.Counted.{coming as coming_of};

use mos_io::Failed;
use port_links::{Link, Listener};

/// A listener that ends after so many connections of another one. How many are to come isn't observable.
#[derive(Drop)]
pub struct Few<L: Listener> {
    inner: L,
    left: u64,
}

impl<L: Listener> Few<L> {
    /// The first `left` connections of `inner`.
    pub fn new(inner: L, left: u64) -> Self
        ensures inner { result.inner ≡ inner }
        ensures left { result.left ≡ left }
    {
        Few { inner, left }
    }
}

impl<L: Listener> Listener for Few<L> {
    ghost use Rattle.std.specs.Prelude.{None};

    type S = L::S;

    type K = L::K;

    ghost coming = { λ _. None };

    ghost faults = { λ f. L.faults f.inner };

    fn accept(&mut self) -> Result<Option<Link<L::S, L::K>>, Failed>
        ensures gives { IfOk result (λ link. Accepts coming_of coming_of link) }
        ensures rises { L.faults self.old.inner ≤ L.faults self.new.inner }
        ensures failed { OnErr result (Rose (L.faults self.old.inner) (L.faults self.new.inner)) }
        ensures kept { OnErr result (coming_of ≡ coming_of) }

        // None comes behind so many calls, and until then as the inner listener's count of those to come allows.
        ensures ended { self.old.left ≡ 0 → result ≡ Ok None }
        ensures still { self.old.left ≡ 0 → self.new ≡ self.old }
        ensures counted { self.old.left ≢ 0 → self.new.left + 1 ≡ self.old.left }
        ensures inner { self.old.left ≢ 0 → IfOk result (λ link. Accepts (L.coming self.old.inner) (L.coming self.new.inner) link) }
    {
        if self.left == 0 {
            return Ok(None);
        }
        self.left -= 1;
        self.inner.accept()
    }
}
