//! What a hub runs.
ghost use Rattle.std.specs.Prelude.{◌≡◌, ℕ, IfOk, IfErr};

/// There was no memory for what a call needs.
#[derive(Debug, Drop, Clone, Copy)]
pub struct NoMemory;

/// The part of a machine of which contracts speak: what it is given, what it answers, and by which relation it steps.
/// A type that holds boxed objects cannot stand here; it stands beside, as the rest `D` of `Machine<D>`.
pub trait StepRelation: Drop {
    /// What the machine is given.
    type Event: Drop;

    /// What it answers.
    type Answer: Drop;

    // The machine before, the event, the answer, and the machine after.
    ghost steps: { Self → Self.Event → Self.Answer → Self → Type 0 };

    // What a refused step may do: the machine before and after. Most machines stay as they were.
    ghost refusal: { Self → Self → Type 0 };

    // The decks that are left; 0 for a machine without decks.
    ghost decks_left: { Self → ℕ };
}

/// A machine that callers can share by a hub. `D` is a rest that goes with it, of which no contract speaks, as a rack
/// of boxed decks; `()` for a machine without one.
pub trait Machine<D>: StepRelation {
    /// One step: the answer to `event`. `NoMemory` comes where memory is short; the machine is then what `refusal`
    /// allows, and the caller may try again.
    fn step(&mut self, rest: &mut D, event: &Self::Event) -> Result<Self::Answer, NoMemory>
        ensures ok { IfOk result (λ a. Self.steps self.old event.now a self.new) }
        ensures err { IfErr result (λ _. Self.refusal self.old self.new) };

    // A refused step may leave the machine as it was.
    ghost refusal_reflexive: { (x : Self) → Self.refusal x x };

    // What two refused steps do, one may do.
    ghost refusal_transitive: { (x y z : Self) → Self.refusal x y → Self.refusal y z → Self.refusal x z };
}
