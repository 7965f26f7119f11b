//! roAck from its events.
ghost use Rattle.std.specs.Prelude.{◌≡◌, ◌++◌, List, IfOk};
ghost use Rattle.mos_fields.specs.Characters.{Text as Text_};
ghost use Rattle.mos_fields.specs.declared.field.Field.TheVariants as fields;
ghost use Rattle.mos_tables.specs.Tables.{ack_columns};
ghost use Rattle.mos_tables.specs.declared.table.Table.TheVariants as tables;
ghost use Rattle.mos_values.specs.Parts.{must};
ghost use Rattle.mos_values.specs.Views.{ro_ack_events};
ghost use Rattle.mos_cursor.specs.Accepted.{IsAccepted};
ghost use Rattle.mos_order_reading.specs.Groups.{AreGroups, IsAhead};

use crate::groups::groups_of;
use mos_cursor::{Cursor, take_leaf};
use mos_fields::{Field, NoMemory, OptId, Slug};
use mos_values::RoAck;
use std::alloc::Global;

/// Takes the order and the status that stand before the groups.
fn take_head(cursor: &mut Cursor) -> (OptId, Slug)
    requires { IsAhead ack_columns cursor.old }
    ensures events { cursor.old ≡ must fields.RoID result.0 ++ (must fields.RoStatus result.1 ++ cursor.new) }
    ensures groups { AreGroups cursor.new }
{
    let ro = take_leaf(cursor, Field::RoID);
    let status = take_leaf(cursor, Field::RoStatus);
    (ro.opt_id(), status.slug())
}

/// The answer of these events. The only error is that memory runs out.
#[tactic(auto, unfolding(mos_values::specs::Views::ro_ack_events))]
pub fn ack_of(alloc: Global, mut cursor: Cursor) -> Result<RoAck, NoMemory>
    requires { (taken : List Text_) × IsAccepted tables.RoAck taken cursor }
    ensures { IfOk result (λ a. ro_ack_events a ≡ cursor) }
{
    let head = take_head(&mut cursor);
    let (ro, status) = head;
    let groups = groups_of(alloc, cursor)?;
    Ok(RoAck { ro, status, groups })
}
