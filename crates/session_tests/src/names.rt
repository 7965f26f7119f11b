//! The names of three devices.
ghost use Rattle.std.specs.Prelude.{IfOk};
ghost use Rattle.port_looking.specs.Looking.{AreNames};

use mos_fields::{FieldFault, Id, Ids};
use std::alloc::Global;

/// The names `a`, `b` and `c`, of the devices 0, 1 and 2.
#[tactic(auto, using(crate::proofs::Distinct::three_are_distinct))]
pub fn three_names(alloc: Global) -> Result<Ids, FieldFault>
    ensures { IfOk result (λ names. AreNames names) }
{
    let mut names = Ids::new(alloc);
    names.push(Id::try_new(alloc, &['a'])?)?;
    names.push(Id::try_new(alloc, &['b'])?)?;
    names.push(Id::try_new(alloc, &['c'])?)?;
    Ok(names)
}
