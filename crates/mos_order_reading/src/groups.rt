//! The groups of a roAck from their events.
ghost use Rattle.std.specs.Prelude.{◌≡◌, ◌++◌, List, [], ◌∷◌, IfOk};
ghost use Rattle.mos_tables.specs.Tables.{group_columns};
ghost use Rattle.mos_tables.specs.declared.table.Table.TheVariants as tables;
ghost use Rattle.mos_values.specs.Views.{group_events, groups_events};
ghost use Rattle.mos_cursor.specs.Accepted.{AllFit};
ghost use Rattle.mos_cursor.specs.Parts.{parts_events};
ghost use Rattle.mos_cursor.specs.Slots.{parts_of};
ghost use Rattle.mos_order_reading.specs.Groups.{AreGroups, IsAhead};

use mos_cursor::{Cursor, Slot, take_leaf};
use mos_fields::{Field, NoMemory};
use mos_values::{AckGroup, AckGroups};
use std::alloc::Global;

/// The group of these parts.
#[tactic(auto, unfolding(mos_values::specs::Views::group_events))]
fn group_with(story: Slot, item: Slot, obj: Slot, channel: Slot, status: Slot) -> AckGroup
    requires { AllFit tables.RoAck group_columns (parts_of (story ∷ item ∷ obj ∷ channel ∷ status ∷ [])) }
    ensures { group_events result ≡ parts_events group_columns (parts_of (story ∷ item ∷ obj ∷ channel ∷ status ∷ [])) }
{
    AckGroup {
        story: story.opt_id(),
        item: item.opt_id(),
        obj: obj.opt_id(),
        channel: channel.optional_text(),
        status: status.text(),
    }
}

/// Takes the parts of the next group.
fn take_parts(cursor: &mut Cursor) -> [Slot; 5]
    requires { IsAhead group_columns cursor.old }
    ensures fit { AllFit tables.RoAck group_columns (parts_of result) }
    ensures events { cursor.old ≡ parts_events group_columns (parts_of result) ++ cursor.new }
    ensures groups { AreGroups cursor.new }
{
    let story = take_leaf(cursor, Field::StoryID);
    let item = take_leaf(cursor, Field::ItemID);
    let obj = take_leaf(cursor, Field::ObjID);
    let channel = take_leaf(cursor, Field::ItemChannel);
    let status = take_leaf(cursor, Field::Status);
    [story, item, obj, channel, status]
}

/// Takes the next group.
fn take_group(cursor: &mut Cursor) -> AckGroup
    requires { IsAhead group_columns cursor.old }
    ensures events { cursor.old ≡ group_events result ++ cursor.new }
    ensures groups { AreGroups cursor.new }
{
    let slots = take_parts(cursor);
    let [story, item, obj, channel, status] = slots;
    group_with(story, item, obj, channel, status)
}

/// The groups of these events, in order. The only error is that memory runs out.
#[tactic(auto, using(crate::proofs::Loops::groups_start, crate::proofs::Loops::group_ahead, crate::proofs::Loops::groups_more, crate::proofs::Loops::groups_end, crate::proofs::Loops::group_shorter))]
pub(crate) fn groups_of(alloc: Global, mut cursor: Cursor) -> Result<AckGroups, NoMemory>
    requires { AreGroups cursor }
    ensures { IfOk result (λ gs. groups_events gs ≡ cursor) }
{
    let mut groups = AckGroups::new(alloc);
    'next: while cursor.is_leaf(Field::StoryID) {
        groups.push(take_group(&mut cursor))?;
    }
    Ok(groups)
}
