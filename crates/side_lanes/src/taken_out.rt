//! A value that is lent, and taken out of its place while its parts run side by side.
ghost use Rattle.std.specs.Prelude.{◌≡◌, Option, Bool};
ghost use Rattle.side_lanes.specs.Lanes.{IfThere, IsThere, RanIfThere};

use crate::lanes::run_lanes;
use crate::side_by_side::Lane;
use core::mem::replace_with;
use std::thread::Threads;

/// How a value falls into two or three loops and a rest, and is made up again.
///
/// The ghost state says whether there is a third loop, when a value may fall into parts that run, into which, and what the
/// parts make up again, with a report of it.
pub trait Parts<T, A: Lane, Q, E> {
    ghost three: { Bool };

    ghost may_part: { Self → T → Type 0 };

    ghost parts: { Self → T → A → A → Option A → Q → Type 0 };

    ghost gathers: { A → A → Option A → Q → T → E → Type 0 };

    /// The loops and the rest.
    fn part(self, whole: T) -> (A, (A, (Option<A>, Q)))
        requires { may_part self whole }
        ensures may_run { A.may_run result.0 × A.may_run (result.1).0 × IfThere A.may_run ((result.1).1).0 }
        ensures third { IsThere three ((result.1).1).0 }
        ensures parts { parts self whole result.0 (result.1).0 ((result.1).1).0 ((result.1).1).1 };

    /// The value that loops and rest make up, and a report.
    fn gather(a: A, b: A, c: Option<A>, rest: Q) -> (T, E)
        requires { IsThere three c }
        ensures { gathers a b c rest result.0 result.1 };
}

/// Runs the loops of a value side by side, by value.
pub fn run_parts<T, A: Lane + Send, Q, E, X: Parts<T, A, Q, E>, R: Threads + Sync>(
    rt: &R,
    whole: T,
    parts: X,
) -> (T, E)
    requires { X.may_part parts whole }
    ensures { (a : A) × (b : A) × (c : Option A) × (rest : Q) × (x : A) × (y : A) × (z : Option A)
        × X.parts parts whole a b c rest × (A.ran a x × A.ran b y × RanIfThere A.ran c z) × X.gathers x y z rest result.0 result.1 }
{
    let (a, (b, (c, rest))) = parts.part(whole);
    let (a, (b, c)) = run_lanes(rt, a, b, c);
    X::gather(a, b, c, rest)
}

/// Takes a value out of its place, runs its loops side by side, and puts back what they make up.
pub fn run_in_place<T, A: Lane + Send, Q, E, X: Parts<T, A, Q, E>, R: Threads + Sync>(
    rt: &R,
    place: &mut T,
    parts: X,
) -> E
    requires { X.may_part parts place.old }
    ensures { (a : A) × (b : A) × (c : Option A) × (rest : Q) × (x : A) × (y : A) × (z : Option A)
        × X.parts parts place.old a b c rest × (A.ran a x × A.ran b y × RanIfThere A.ran c z) × X.gathers x y z rest place.new result }
{
    replace_with(
        place,
        parts,
        |whole: T, parts: X| -> (T, E)
            requires { X.may_part parts whole }
            ensures { (a : A) × (b : A) × (c : Option A) × (rest : Q) × (x : A) × (y : A) × (z : Option A)
                × X.parts parts whole a b c rest × (A.ran a x × A.ran b y × RanIfThere A.ran c z) × X.gathers x y z rest result.0 result.1 }
        { run_parts(rt, whole, parts) },
    )
}
