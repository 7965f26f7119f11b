//! Names.
ghost use Rattle.std.specs.Prelude.{◌≡◌, length, IfOk};
ghost use Rattle.std.specs.Arc.{arc_value};
ghost use Rattle.port_looking.specs.Looking.{AreNames};
ghost use Rattle.door_tests.specs.Two.{two};

use mos_fields::{FieldFault, Id, Ids, NoMemory, Text};
use port_doors::Peer;
use port_jobs::Names;
use std::alloc::Global;
use std::sync::Arc;
use std::test::Fail;

/// The names `a` and `b`, of the devices 0 and 1.
#[tactic(auto, using(crate::proofs::Distinct::two_are_distinct))]
fn two_ids(alloc: Global) -> Result<Ids, FieldFault>
    ensures names { IfOk result (λ names. AreNames names) }
    ensures count { IfOk result (λ names. length names ≡ 2) }
{
    let mut names = Ids::new(alloc);
    names.push(Id::try_new(alloc, &['a'])?)?;
    names.push(Id::try_new(alloc, &['b'])?)?;
    Ok(names)
}

/// They, shared.
pub fn two_names(alloc: Global) -> Result<Arc<Names>, Fail>
    ensures { IfOk result (λ names. length (arc_value names) ≡ 2) }
{
    let names = Names::new(two_ids(alloc)?);
    Ok(Arc::new(alloc, names)?)
}

/// The name of one letter.
pub fn id(alloc: Global, letter: char) -> Result<Id, FieldFault> {
    Id::try_new(alloc, &[letter])
}

/// The peer at a machine of this name, at two ports.
pub fn peer(alloc: Global, host: char, upper: u16, lower: u16) -> Result<Peer, FieldFault> {
    Ok(Peer {
        host: Text::try_new(alloc, &[host])?,
        upper,
        lower,
    })
}

/// The peers of the two devices.
pub fn two_peers(alloc: Global) -> Result<Vec<Peer>, Fail>
    ensures { IfOk result (λ peers. length peers.items ≡ 2) }
{
    let mut peers = Vec::new(alloc);
    peers.push(peer(alloc, 'p', 1, 2)?)?;
    peers.push(peer(alloc, 'q', 3, 4)?)?;
    Ok(peers)
}
