//! What an element_source holds, from its events.
ghost use Rattle.std.specs.Prelude.{◌≡◌, ◌++◌, List, [], ◌∷◌, IfOk, map};
ghost use Rattle.std.specs.List.{AllByRecursion};
ghost use Rattle.mos_fields.specs.Characters.{Text};
ghost use Rattle.mos_fields.specs.Fields.{name_of};
ghost use Rattle.mos_fields.specs.declared.field.Field.{Field as Field_};
ghost use Rattle.mos_fields.specs.declared.field.Field.TheVariants as fields;
ghost use Rattle.mos_fields.specs.declared.form.Form.TheVariants as forms;
ghost use Rattle.mos_fields.specs.declared.operation.Operation.TheVariants as operations;
ghost use Rattle.mos_tables.specs.declared.aim.Aim.TheVariants as aims;
ghost use Rattle.mos_tables.specs.declared.table.Table.{Table as Table_};
ghost use Rattle.mos_tables.specs.declared.table.Table.TheVariants as tables;
ghost use Rattle.mos_values.specs.MessageViews.{ids_events};
ghost use Rattle.mos_values.specs.Parts.{must};
ghost use Rattle.mos_values.specs.Views.{items_events, stories_events};
ghost use Rattle.mos_cursor.specs.Accepted.{AllFit, CountLeaves, IsAccepted, LeafFits, ManyLeaves};
ghost use Rattle.mos_cursor.specs.Parts.{leaf_event, part_events, parts_events};
ghost use Rattle.mos_cursor.specs.Slots.{leaf_of, part_of, parts_of};
ghost use Rattle.mos_action_reading.specs.Parts.{whole_items, whole_stories};

use crate::identifiers::{id_of, ids_of};
use mos_cursor::{Cursor, LeafText, Slot, record_slots};
use mos_fields::{NoMemory, Operation, OptId, OptIds};
use mos_story_reading::{items_of, stories_of};
use mos_tables::{Aim, Table};
use mos_values::{Items, Stories};
use std::alloc::Global;

/// The stories of the one part.
fn stories_in(alloc: Global, slots: [Slot; 1]) -> Result<Stories, NoMemory>
    requires { (t : Table_) × AllFit t (whole_stories ∷ []) (parts_of slots) }
    ensures { IfOk result (λ stories. stories_events stories ≡ parts_events (whole_stories ∷ []) (parts_of slots)) }
{
    let [stories] = slots;
    match stories {
        Slot::Records(inner) => stories_of(alloc, inner),
        _ => unreachable!(),
    }
}

/// The items of the one part.
fn items_in(alloc: Global, slots: [Slot; 1]) -> Result<Items, NoMemory>
    requires { (t : Table_) × AllFit t (whole_items ∷ []) (parts_of slots) }
    ensures { IfOk result (λ items. items_events items ≡ parts_events (whole_items ∷ []) (parts_of slots)) }
{
    let [items] = slots;
    match items {
        Slot::Records(inner) => items_of(alloc, inner),
        _ => unreachable!(),
    }
}

/// The identifiers of a part.
fn ids_in(alloc: Global, slot: Slot) -> Result<OptIds, NoMemory>
    requires { ManyLeaves forms.OptId (part_of slot) }
    ensures { IfOk result (λ ids. (f : Field_) → ids_events f ids ≡ part_events f (part_of slot)) }
{
    match slot {
        Slot::Leaves(leaves) => ids_of(alloc, leaves),
        _ => unreachable!(),
    }
}

/// The stories that an action inserts. The only error is that memory runs out.
pub(crate) fn insert_stories(alloc: Global, inner: Cursor) -> Result<Stories, NoMemory>
    requires { (taken : List Text) × IsAccepted (tables.Source operations.Insert aims.AtStory) taken inner }
    ensures { IfOk result (λ stories. stories_events stories ≡ inner) }
{
    let slots: [Slot; 1] = record_slots::<1>(
        alloc,
        Table::Source(Operation::Insert, Aim::AtStory),
        inner,
    )?;
    stories_in(alloc, slots)
}

/// The items that an action inserts. The only error is that memory runs out.
pub(crate) fn insert_items(alloc: Global, inner: Cursor) -> Result<Items, NoMemory>
    requires { (taken : List Text) × IsAccepted (tables.Source operations.Insert aims.AtItem) taken inner }
    ensures { IfOk result (λ items. items_events items ≡ inner) }
{
    let slots: [Slot; 1] = record_slots::<1>(
        alloc,
        Table::Source(Operation::Insert, Aim::AtItem),
        inner,
    )?;
    items_in(alloc, slots)
}

/// The stories that an action replaces. The only error is that memory runs out.
pub(crate) fn replace_stories(alloc: Global, inner: Cursor) -> Result<Stories, NoMemory>
    requires { (taken : List Text) × IsAccepted (tables.Source operations.Replace aims.AtStory) taken inner }
    ensures { IfOk result (λ stories. stories_events stories ≡ inner) }
{
    let slots: [Slot; 1] = record_slots::<1>(
        alloc,
        Table::Source(Operation::Replace, Aim::AtStory),
        inner,
    )?;
    stories_in(alloc, slots)
}

/// The items that an action replaces. The only error is that memory runs out.
pub(crate) fn replace_items(alloc: Global, inner: Cursor) -> Result<Items, NoMemory>
    requires { (taken : List Text) × IsAccepted (tables.Source operations.Replace aims.AtItem) taken inner }
    ensures { IfOk result (λ items. items_events items ≡ inner) }
{
    let slots: [Slot; 1] = record_slots::<1>(
        alloc,
        Table::Source(Operation::Replace, Aim::AtItem),
        inner,
    )?;
    items_in(alloc, slots)
}

/// The identifiers of the stories that an action moves. The only error is that memory runs out.
pub(crate) fn move_stories(alloc: Global, inner: Cursor) -> Result<OptIds, NoMemory>
    requires { (taken : List Text) × IsAccepted (tables.Source operations.Move aims.AtStory) taken inner }
    ensures { IfOk result (λ ids. ids_events fields.StoryID ids ≡ inner) }
{
    let slots: [Slot; 1] = record_slots::<1>(
        alloc,
        Table::Source(Operation::Move, Aim::AtStory),
        inner,
    )?;
    let [ids] = slots;
    ids_in(alloc, ids)
}

/// The identifiers of the items that an action moves. The only error is that memory runs out.
pub(crate) fn move_items(alloc: Global, inner: Cursor) -> Result<OptIds, NoMemory>
    requires { (taken : List Text) × IsAccepted (tables.Source operations.Move aims.AtItem) taken inner }
    ensures { IfOk result (λ ids. ids_events fields.ItemID ids ≡ inner) }
{
    let slots: [Slot; 1] = record_slots::<1>(
        alloc,
        Table::Source(Operation::Move, Aim::AtItem),
        inner,
    )?;
    let [ids] = slots;
    ids_in(alloc, ids)
}

/// The identifiers of the stories that an action removes. The only error is that memory runs out.
pub(crate) fn delete_stories(alloc: Global, inner: Cursor) -> Result<OptIds, NoMemory>
    requires { (taken : List Text) × IsAccepted (tables.Source operations.Delete aims.Nowhere) taken inner }
    ensures { IfOk result (λ ids. ids_events fields.StoryID ids ≡ inner) }
{
    let slots: [Slot; 1] = record_slots::<1>(
        alloc,
        Table::Source(Operation::Delete, Aim::Nowhere),
        inner,
    )?;
    let [ids] = slots;
    ids_in(alloc, ids)
}

/// The identifiers of the items that an action removes. The only error is that memory runs out.
pub(crate) fn delete_items(alloc: Global, inner: Cursor) -> Result<OptIds, NoMemory>
    requires { (taken : List Text) × IsAccepted (tables.Source operations.Delete aims.AtStory) taken inner }
    ensures { IfOk result (λ ids. ids_events fields.ItemID ids ≡ inner) }
{
    let slots: [Slot; 1] = record_slots::<1>(
        alloc,
        Table::Source(Operation::Delete, Aim::AtStory),
        inner,
    )?;
    let [ids] = slots;
    ids_in(alloc, ids)
}

/// Two identifiers.
pub(crate) struct Pair {
    pub(crate) first: OptId,
    pub(crate) second: OptId,
}

/// The identifiers of these two texts.
#[tactic(auto, unfolding(mos_values::specs::Parts::must))]
fn pair_of(leaves: [LeafText; 2]) -> Pair
    requires { AllByRecursion (LeafFits forms.OptId) (map leaf_of leaves) }
    ensures { (f : Field_) → must f result.first ++ must f result.second ≡ map (leaf_event (name_of f)) (map leaf_of leaves) }
{
    let [first, second] = leaves;
    Pair {
        first: id_of(first.text),
        second: id_of(second.text),
    }
}

/// The two identifiers of a part.
fn pair_in(slot: Slot) -> Pair
    requires { CountLeaves forms.OptId 2 (part_of slot) }
    ensures { (f : Field_) → must f result.first ++ must f result.second ≡ part_events f (part_of slot) }
{
    match slot {
        Slot::Leaves(leaves) => match <[LeafText; 2]>::try_from(leaves.into_vec()) {
            Ok(leaves) => pair_of(leaves),
            Err(_) => unreachable!(),
        },
        _ => unreachable!(),
    }
}

/// The identifiers of the stories that an action exchanges. The only error is that memory runs out.
pub(crate) fn swap_stories(alloc: Global, inner: Cursor) -> Result<Pair, NoMemory>
    requires { (taken : List Text) × IsAccepted (tables.Source operations.Swap aims.Nowhere) taken inner }
    ensures { IfOk result (λ p. must fields.StoryID p.first ++ must fields.StoryID p.second ≡ inner) }
{
    let slots: [Slot; 1] = record_slots::<1>(
        alloc,
        Table::Source(Operation::Swap, Aim::Nowhere),
        inner,
    )?;
    let [ids] = slots;
    Ok(pair_in(ids))
}

/// The identifiers of the items that an action exchanges. The only error is that memory runs out.
pub(crate) fn swap_items(alloc: Global, inner: Cursor) -> Result<Pair, NoMemory>
    requires { (taken : List Text) × IsAccepted (tables.Source operations.Swap aims.AtStory) taken inner }
    ensures { IfOk result (λ p. must fields.ItemID p.first ++ must fields.ItemID p.second ≡ inner) }
{
    let slots: [Slot; 1] = record_slots::<1>(
        alloc,
        Table::Source(Operation::Swap, Aim::AtStory),
        inner,
    )?;
    let [ids] = slots;
    Ok(pair_in(ids))
}
