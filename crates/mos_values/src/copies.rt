//! Copies of several values at once, so that a record of many owned parts is made with one `?`.
ghost use Rattle.std.specs.Prelude.{◌≡◌, IfOk};

use crate::try_clone::TryClone;
use mos_fields::NoMemory;

/// Copies of these two values.
pub fn pair<A: TryClone, B: TryClone>(a: &A, b: &B) -> Result<(A, B), NoMemory>
    ensures { IfOk result (λ t. t ≡ (a.now, b.now)) }
{
    let a = a.try_clone()?;
    let b = b.try_clone()?;
    Ok((a, b))
}

/// Copies of these three values.
pub fn triple<A: TryClone, B: TryClone, C: TryClone>(
    a: &A,
    b: &B,
    c: &C,
) -> Result<(A, B, C), NoMemory>
    ensures { IfOk result (λ t. t ≡ (a.now, b.now, c.now)) }
{
    let a = a.try_clone()?;
    let b = b.try_clone()?;
    let c = c.try_clone()?;
    Ok((a, b, c))
}
