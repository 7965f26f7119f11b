//! Connections that this end opens.
ghost use Rattle.std.specs.Prelude.{◌≡◌, ℕ, ◌≤◌, List, [], ◌∷◌, Option, IfOk, OnErr};
ghost use Rattle.mos_io.specs.Counts.{Rose};
ghost use Rattle.port_links.specs.Links.{Gives};

use crate::link::Link;
use crate::news::News;
use crate::place::Place;
use mos_fields::NoMemory;
use mos_io::{Failed, Sink, Source};
use port_session::Port;

/// Opens connections.
///
/// A dialer may be observable: its ghost state `links` is then the numbers of the connections that it opened, in order.
/// `calls` counts the calls and rises at each; `faults` counts those that failed, and never falls.
pub trait Dialer: Drop {
    type S: Source + Drop;

    type K: Sink + Drop;

    ghost links: { Self → Option (List ℕ) };

    ghost calls: { Self → ℕ };

    ghost faults: { Self → ℕ };

    /// A connection to the place. `Failed` comes only where the count of faults rises; none was opened then.
    fn dial(&mut self, place: &Place) -> Result<Link<Self::S, Self::K>, Failed>
        ensures gives { IfOk result (λ link. Gives (links self.old) (links self.new) (link.number ∷ [])) }
        ensures called { Rose (calls self.old) (calls self.new) }
        ensures calls_rise { calls self.old ≤ calls self.new }
        ensures rises { faults self.old ≤ faults self.new }
        ensures failed { OnErr result (Rose (faults self.old) (faults self.new)) }
        ensures kept { OnErr result (links self.new ≡ links self.old) };

    /// Is told what came of a dial to the place, for this port; the port's own number of a connection stands for none. A
    /// dialer may pass it on, as to a log. Nothing that is seen of the dialer changes by it, and it can't fail. Unless a
    /// dialer does otherwise, it does nothing.
    fn hear(&self, _port: &Port, _place: &Place, _news: News) {}

    /// One more dialer of the kind, for another worker. What it tells of its connections begins as it is told here. The
    /// only error is that memory runs out.
    fn twin(&self) -> Result<Self, NoMemory>
    where
        Self: Sized,
        ensures { IfOk result (λ dialer. links dialer ≡ links self.now) };
}
