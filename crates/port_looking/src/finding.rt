//! Which device a connection belongs to.
ghost use Rattle.std.specs.Prelude.{◌≡◌, ◌<◌, ◌≤◌, IfOk, IfErr, length};
ghost use Rattle.mos_io.specs.Bytes.{Takes};
ghost use Rattle.port_fronts.specs.Fronts.{before};
ghost use Rattle.port_looking.specs.Looking.{AreNames, Looks, Unread};

use crate::looker::{Lack, look_in};
use mos_fields::Ids;
use mos_io::Source;
use port_fronts::Fronted;
use std::alloc::Global;

/// Why no device was found. Either way the source comes back, without the bytes that were read.
#[derive(Drop)]
pub enum LookFault<S: Drop> {
    /// A read failed.
    ReadFault { source: S },
    /// Memory ran out.
    NoMemory { source: S },
}

/// Reads until the first message of a connection is whole, and says which device it names: the place, from 0, of its mosID
/// among the names. The number is also 0 where that mosID isn't among them, and where no whole message came: where the
/// source ended, the stream is rejected or `budget` bytes were read before one was whole.
///
/// What comes back gives the bytes read once more, and then reads on.
///
/// # Errors
/// `ReadFault` only where the source's count of faults rose, `NoMemory` where memory runs out.
pub fn look<S: Source + Drop>(
    alloc: Global,
    source: S,
    names: &Ids,
    budget: u64,
) -> Result<(u32, Fronted<S>), LookFault<S>>
    requires { AreNames names.now }
    ensures looks { IfOk result (λ r. Looks names.now (S.left r.1.source) budget r.1.bytes r.0) }
    ensures taken { IfOk result (λ r. Takes (S.left source) (S.left r.1.source) r.1.bytes) }
    ensures left { IfOk result (λ r. before r.1.bytes (S.left r.1.source) ≡ S.left source) }
    ensures rises { IfOk result (λ r. S.faults source ≤ S.faults r.1.source) }
    ensures device { IfOk result (λ r. r.0 < length names.now) }
    ensures budget { IfOk result (λ r. length r.1.bytes ≤ budget) }
    ensures fault { IfErr result (λ fault. Unread S.left S.faults source fault) }
{
    let mut source = source;
    let mut front = Vec::new(alloc);
    match look_in(alloc, &mut source, &mut front, names, budget) {
        Ok(device) => Ok((device, Fronted::new(alloc, front, source))),
        Err(Lack::Read) => Err(LookFault::ReadFault { source }),
        Err(Lack::Memory) => Err(LookFault::NoMemory { source }),
    }
}
