//! What an element_target aims at, from its events.
ghost use Rattle.std.specs.Prelude.{◌≡◌, ◌++◌, List, [], ◌∷◌, IfOk};
ghost use Rattle.mos_fields.specs.Characters.{Text};
ghost use Rattle.mos_fields.specs.declared.field.Field.TheVariants as fields;
ghost use Rattle.mos_fields.specs.declared.form.Form.TheVariants as forms;
ghost use Rattle.mos_fields.specs.declared.operation.Operation.TheVariants as operations;
ghost use Rattle.mos_tables.specs.declared.table.Table.TheVariants as tables;
ghost use Rattle.mos_values.specs.Parts.{maybe, must};
ghost use Rattle.mos_cursor.specs.Accepted.{CountLeaves, IsAccepted, OneLeaf, OptionalLeaf};
ghost use Rattle.mos_cursor.specs.Parts.{part_events};
ghost use Rattle.mos_cursor.specs.Slots.{part_of};

use mos_cursor::{Cursor, Slot, record_slots};
use mos_fields::{NoMemory, Operation, OptId};
use mos_tables::Table;
use std::alloc::Global;

/// What an element_target aims at: a story, or an item of it.
pub(crate) struct Target {
    pub(crate) story: OptId,
    pub(crate) item: Option<OptId>,
}

/// The target of these parts.
fn target_with(story: Slot, item: Slot) -> Target
    requires story { OneLeaf forms.OptId (part_of story) }
    requires item { OptionalLeaf forms.OptId (part_of item) }
    ensures { must fields.StoryID result.story ++ maybe fields.ItemID result.item ≡ part_events fields.StoryID (part_of story) ++ (part_events fields.ItemID (part_of item) ++ []) }
{
    Target {
        story: story.opt_id(),
        item: item.optional_opt_id(),
    }
}

/// The story of these parts, the second of which is empty.
fn story_with(story: Slot, items: Slot) -> OptId
    requires story { OneLeaf forms.OptId (part_of story) }
    requires items { CountLeaves forms.OptId 0 (part_of items) }
    ensures { must fields.StoryID result ≡ part_events fields.StoryID (part_of story) ++ (part_events fields.ItemID (part_of items) ++ []) }
{
    let _ = items;
    story.opt_id()
}

/// The target of an action that inserts. The only error is that memory runs out.
pub(crate) fn insert_target(alloc: Global, inner: Cursor) -> Result<Target, NoMemory>
    requires { (taken : List Text) × IsAccepted (tables.Target operations.Insert) taken inner }
    ensures { IfOk result (λ t. must fields.StoryID t.story ++ maybe fields.ItemID t.item ≡ inner) }
{
    let slots: [Slot; 2] = record_slots::<2>(alloc, Table::Target(Operation::Insert), inner)?;
    let [story, item] = slots;
    Ok(target_with(story, item))
}

/// The target of an action that replaces. The only error is that memory runs out.
pub(crate) fn replace_target(alloc: Global, inner: Cursor) -> Result<Target, NoMemory>
    requires { (taken : List Text) × IsAccepted (tables.Target operations.Replace) taken inner }
    ensures { IfOk result (λ t. must fields.StoryID t.story ++ maybe fields.ItemID t.item ≡ inner) }
{
    let slots: [Slot; 2] = record_slots::<2>(alloc, Table::Target(Operation::Replace), inner)?;
    let [story, item] = slots;
    Ok(target_with(story, item))
}

/// The target of an action that moves. The only error is that memory runs out.
pub(crate) fn move_target(alloc: Global, inner: Cursor) -> Result<Target, NoMemory>
    requires { (taken : List Text) × IsAccepted (tables.Target operations.Move) taken inner }
    ensures { IfOk result (λ t. must fields.StoryID t.story ++ maybe fields.ItemID t.item ≡ inner) }
{
    let slots: [Slot; 2] = record_slots::<2>(alloc, Table::Target(Operation::Move), inner)?;
    let [story, item] = slots;
    Ok(target_with(story, item))
}

/// The story of an action that removes items. The only error is that memory runs out.
pub(crate) fn delete_story(alloc: Global, inner: Cursor) -> Result<OptId, NoMemory>
    requires { (taken : List Text) × IsAccepted (tables.Target operations.Delete) taken inner }
    ensures { IfOk result (λ story. must fields.StoryID story ≡ inner) }
{
    let slots: [Slot; 2] = record_slots::<2>(alloc, Table::Target(Operation::Delete), inner)?;
    let [story, items] = slots;
    Ok(story_with(story, items))
}

/// The story of an action that exchanges items. The only error is that memory runs out.
pub(crate) fn swap_story(alloc: Global, inner: Cursor) -> Result<OptId, NoMemory>
    requires { (taken : List Text) × IsAccepted (tables.Target operations.Swap) taken inner }
    ensures { IfOk result (λ story. must fields.StoryID story ≡ inner) }
{
    let slots: [Slot; 2] = record_slots::<2>(alloc, Table::Target(Operation::Swap), inner)?;
    let [story, items] = slots;
    Ok(story_with(story, items))
}
