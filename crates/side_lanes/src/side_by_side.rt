//! Loops side by side.
use std::thread::{Threads, join};

/// A loop that runs beside others, by value: it is moved into its thread and comes back.
///
/// The ghost state `may_run` says what it needs, and `ran` what holds of it before and after.
pub trait Lane: Drop {
    ghost may_run: { Self → Type 0 };

    ghost ran: { Self → Self → Type 0 };

    /// Runs the loop to its end.
    fn run(self) -> Self
        requires { may_run self }
        ensures { ran self result };
}

/// Runs three loops side by side. It returns when each of them has ended. Where no thread can be made, one runs after
/// the other.
pub fn run_three<A: Lane + Send, B: Lane + Send, C: Lane + Send, R: Threads + Sync>(
    rt: &R,
    a: A,
    b: B,
    c: C,
) -> (A, (B, C))
    requires { A.may_run a × B.may_run b × C.may_run c }
    ensures first { A.ran a result.0 }
    ensures second { B.ran b (result.1).0 }
    ensures third { C.ran c (result.1).1 }
{
    join(
        rt,
        || -> A
            requires { A.may_run a }
            ensures { A.ran a result }
        { a.run() },
        || -> (B, C)
            requires { B.may_run b × C.may_run c }
            ensures second { B.ran b result.0 }
            ensures third { C.ran c result.1 }
        { run_two(rt, b, c) },
    )
}

/// Runs two loops side by side, as `run_three` does three.
pub fn run_two<A: Lane + Send, B: Lane + Send, R: Threads + Sync>(rt: &R, a: A, b: B) -> (A, B)
    requires { A.may_run a × B.may_run b }
    ensures first { A.ran a result.0 }
    ensures second { B.ran b result.1 }
{
    join(
        rt,
        || -> A
            requires { A.may_run a }
            ensures { A.ran a result }
        { a.run() },
        || -> B
            requires { B.may_run b }
            ensures { B.ran b result }
        { b.run() },
    )
}
