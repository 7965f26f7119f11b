//! Two loops or three side by side.
ghost use Rattle.std.specs.Prelude.{◌≡◌, Option};
ghost use Rattle.side_lanes.specs.Lanes.{IfThere, RanIfThere};

use crate::side_by_side::{Lane, run_three, run_two};
use std::thread::Threads;

/// Runs two loops side by side, and perhaps a third one.
pub fn run_lanes<A: Lane + Send, R: Threads + Sync>(
    rt: &R,
    a: A,
    b: A,
    c: Option<A>,
) -> (A, (A, Option<A>))
    requires { A.may_run a × A.may_run b × IfThere A.may_run c }
    ensures first { A.ran a result.0 }
    ensures second { A.ran b (result.1).0 }
    ensures third { RanIfThere A.ran c (result.1).1 }
{
    match c {
        Some(c) => {
            let (a, (b, c)) = run_three(rt, a, b, c);
            (a, (b, Some(c)))
        }
        None => {
            let (a, b) = run_two(rt, a, b);
            (a, (b, None))
        }
    }
}
