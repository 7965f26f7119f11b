//! Counts of outcomes.
ghost use Rattle.std.specs.Prelude.{◌≡◌, ◌<◌, ◌^◌, ◌-◌, bytes_eq, codes};
ghost use Rattle.world_scripts.specs.Outcomes.{outcome_of};
ghost use Rattle.world_scripts.specs.Results.{is_accepted as is_accepted_of, is_impossible as is_impossible_of, is_refused as is_refused_of};
ghost use Rattle.script_plays.specs.Counted.{counted, more_if as more_if_of};

use mos_fields::Text;
use world_scripts::Outcome;

/// How many events were played, how many commands were answered `OK`, how many otherwise, and how many events weren't
/// possible.
#[derive(Clone, Copy, Debug, PartialEq, Eq)]
pub struct Counts {
    pub events: u64,
    pub accepted: u64,
    pub refused: u64,
    pub impossible: u64,
}

/// OK, in code units.
const OKAY: [u16; 2] = [79, 75];

/// A command that was answered `OK`.
fn is_accepted(outcome: &Outcome) -> bool
    ensures { result ≡ is_accepted_of (outcome_of outcome.now) }
{
    match outcome {
        Outcome::Command { text } => is_okay(text),
        _ => false,
    }
}

/// A command that was answered otherwise.
fn is_refused(outcome: &Outcome) -> bool
    ensures { result ≡ is_refused_of (outcome_of outcome.now) }
{
    match outcome {
        Outcome::Command { text } => !is_okay(text),
        _ => false,
    }
}

fn is_okay(text: &Text) -> bool
    ensures { result ≡ bytes_eq text.now (codes "OK") }
{
    text.units() == OKAY.as_slice()
}

/// An event that wasn't possible.
fn is_impossible(outcome: &Outcome) -> bool
    ensures { result ≡ is_impossible_of (outcome_of outcome.now) }
{
    match outcome {
        Outcome::Impossible => true,
        _ => false,
    }
}

/// One more where the test holds.
fn more_if(test: bool, count: u64) -> u64
    requires { count < 2 ^ 64 - 1 }
    ensures { result ≡ more_if_of test count }
{
    if test { count + 1 } else { count }
}

impl Counts {
    /// Nothing was counted yet.
    pub fn new() -> Self
        ensures { result ≡ record { events = 0; accepted = 0; refused = 0; impossible = 0 } }
    {
        Counts {
            events: 0,
            accepted: 0,
            refused: 0,
            impossible: 0,
        }
    }

    /// One more event, which came to this.
    pub fn add(self, outcome: &Outcome) -> Self
        requires events { self.events < 2 ^ 64 - 1 }
        requires accepted { self.accepted < 2 ^ 64 - 1 }
        requires refused { self.refused < 2 ^ 64 - 1 }
        requires impossible { self.impossible < 2 ^ 64 - 1 }
        ensures { result ≡ counted self (outcome_of outcome.now) }
    {
        Counts {
            events: self.events + 1,
            accepted: more_if(is_accepted(outcome), self.accepted),
            refused: more_if(is_refused(outcome), self.refused),
            impossible: more_if(is_impossible(outcome), self.impossible),
        }
    }
}
