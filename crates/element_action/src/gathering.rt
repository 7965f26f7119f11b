//! IDs in the order in which a MOVE leaves them: those of the sources together at a place, the others as they stood.
ghost use Rattle.std.specs.Prelude.{◌≡◌, ◌≤◌, [], ◌∷◌, ◌++◌, length, take, drop, IfOk, OnOk};
ghost use Rattle.mos_edits.specs.KeyedLists.{without};
ghost use Rattle.mos_values.specs.Distinct.{AreDistinct};

use crate::seen::{is_seen, table_of};
use mos_fields::{NoMemory, OptId, OptIds};
use running_order::IdTable;
use std::alloc::Global;

// Adds an ID at the end.
fn push_copy(list: &mut OptIds, id: &OptId) -> Result<(), NoMemory>
    ensures { OnOk result (list.new ≡ list.old ++ id.now ∷ []) }
{
    list.push(id.try_clone()?)
}

// Adds an ID at the end, if it isn't among those that are taken out.
fn push_other(list: &mut OptIds, id: &OptId, out: &IdTable) -> Result<(), NoMemory>
    ensures { OnOk result (list.new ≡ list.old ++ without (λ x. x) out.now (id.now ∷ [])) }
{
    if is_seen(out, id) {
        Ok(())
    } else {
        push_copy(list, id)
    }
}

// Adds the IDs at the end that aren't among those that are taken out.
fn push_others(list: &mut OptIds, ids: &[OptId], out: &IdTable) -> Result<(), NoMemory>
    ensures { OnOk result (list.new ≡ list.old ++ without (λ x. x) out.now ids.now) }
{
    for id in ids {
        push_other(list, id, out)?;
    }
    Ok(())
}

// Adds IDs at the end.
fn push_all(list: &mut OptIds, ids: &[OptId]) -> Result<(), NoMemory>
    ensures { OnOk result (list.new ≡ list.old ++ ids.now) }
{
    for id in ids {
        push_copy(list, id)?;
    }
    Ok(())
}

/// The IDs of the list with the sources together before the place, which may be the end. The only error is that memory
/// runs out.
pub fn gather(
    alloc: Global,
    ids: &[OptId],
    at: usize,
    sources: &[OptId],
) -> Result<OptIds, NoMemory>
    requires within { at ≤ length ids.now }
    requires distinct { AreDistinct sources.now }
    ensures { IfOk result (λ l. l ≡ without (λ x. x) sources.now (take at ids.now) ++ (sources.now ++ without (λ x. x) sources.now (drop at ids.now))) }
{
    let out = table_of(alloc, sources)?;
    let mut list = OptIds::new(alloc);
    push_others(&mut list, &ids[..at], &out)?;
    push_all(&mut list, sources)?;
    push_others(&mut list, &ids[at..], &out)?;
    Ok(list)
}
