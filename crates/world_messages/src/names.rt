//! The names of both ends.
ghost use Rattle.std.specs.Prelude.{◌≡◌, ◌≤◌, length, IfOk};
ghost use Rattle.world_messages.specs.Messages.{mos_name, ncs_name};

use mos_fields::{Id, NoMemory, Samples};
use std::alloc::Global;

/// The ncsID of the server.
pub fn server_name(alloc: Global) -> Result<Id, NoMemory>
    ensures { IfOk result (λ x. x ≡ ncs_name) }
{
    match Id::try_new(alloc, &['n', 'c', 's']) {
        Ok(name) => Ok(name),
        Err(_) => Err(NoMemory),
    }
}

/// The mosID of device `d`.
pub fn device_name(alloc: Global, d: u32) -> Result<Id, NoMemory>
    ensures { IfOk result (λ x. x ≡ mos_name d) }
{
    let mut chars = Vec::new(alloc);
    chars.push('m')?;
    Samples::new(d).push_to(&mut chars)?;
    match Id::try_new(alloc, &chars) {
        Ok(name) => Ok(name),
        Err(_) => Err(NoMemory),
    }
}
