//! IDs that were seen, by table.
ghost use Rattle.std.specs.Prelude.{◌≡◌, false, [], ◌∷◌, ◌++◌, IfOk, OnOk};
ghost use Rattle.mos_edits.specs.Texts.{has_id};
ghost use Rattle.mos_values.specs.Distinct.{AreDistinct};

use mos_fields::{NoMemory, OptId};
use running_order::IdTable;
use std::alloc::Global;

/// Whether there are so few that each is looked at for itself; more of them are gone over at once. Both come to the same.
pub fn are_few(ids: &[OptId]) -> bool {
    ids.len() <= 8
}

/// Whether the ID was seen.
pub fn is_seen(seen: &IdTable, id: &OptId) -> bool
    ensures { result ≡ has_id id.now seen.now }
{
    seen.place(id.text()).is_some()
}

/// Notes an ID that wasn't seen yet.
pub fn note(seen: &mut IdTable, alloc: Global, id: &OptId) -> Result<(), NoMemory>
    requires { has_id id.now seen.old ≡ false }
    ensures { OnOk result (seen.new ≡ seen.old ++ id.now ∷ []) }
{
    seen.has_distinct_ids();
    seen.push(alloc, id.text())
}

/// The table of IDs, none of which stands twice.
pub fn table_of(alloc: Global, ids: &[OptId]) -> Result<IdTable, NoMemory>
    requires { AreDistinct ids.now }
    ensures { IfOk result (λ t. t ≡ ids.now) }
{
    let mut table = IdTable::with_room(alloc, ids.len())?;
    for id in ids {
        table.push(alloc, id.text())?;
    }
    Ok(table)
}
