//! Items of stories from their events.
ghost use Rattle.std.specs.Prelude.{◌≡◌, ◌++◌, List, [], ◌∷◌, IfOk, drop, map, take};
ghost use Rattle.std.specs.List.{AllByRecursion, flat_map};
ghost use Rattle.mos_fields.specs.Characters.{Text as Text_};
ghost use Rattle.mos_fields.specs.Fields.{name_of};
ghost use Rattle.mos_fields.specs.Values.{samples_text};
ghost use Rattle.mos_fields.specs.declared.field.Field.TheVariants as fields;
ghost use Rattle.mos_tables.specs.Tables.{columns};
ghost use Rattle.mos_tables.specs.declared.table.Table.{Table as Table_};
ghost use Rattle.mos_tables.specs.declared.table.Table.TheVariants as tables;
ghost use Rattle.mos_values.specs.Distinct.{AreDistinct, item_ids};
ghost use Rattle.mos_values.specs.Parts.{joined, maybe, maybe_as, maybe_raw, must, raws};
ghost use Rattle.mos_values.specs.Views.{item_events, items_events};
ghost use Rattle.mos_cursor.specs.Accepted.{AllFit, IsAccepted, RecordsFit};
ghost use Rattle.mos_cursor.specs.Parts.{parts_events, places, record_events};
ghost use Rattle.mos_cursor.specs.Slots.{parts_of, record_of};
ghost use Rattle.mos_cursor.specs.Inner.{Holds, inner_events};

use mos_cursor::{Cursor, Nested, Slot, halves_of};
use mos_fields::{Id, NoMemory, OptId, Samples, Slug, Text, Unread, pair_ok, triple_ok};
use mos_tables::Table;
use mos_values::{Item, Items, Sequence, Unreads};
use std::alloc::Global;

/// What an item is.
#[derive(Drop)]
struct Front {
    id: Id,
    slug: Option<Slug>,
    obj: OptId,
    mos: OptId,
    mos_abstract: Option<Unread>,
    obj_paths: Option<Unread>,
    channel: Option<Text>,
}

/// How an item is played, and its raw elements.
#[derive(Drop)]
struct Back {
    ed_start: Option<Samples>,
    ed_dur: Option<Samples>,
    user_timing_dur: Option<Samples>,
    trigger: Option<Text>,
    macro_in: Option<Text>,
    macro_out: Option<Text>,
    metadata: Unreads,
    others: Unreads,
}

/// The item of these parts.
fn item_front_with(
    id: Slot,
    slug: Slot,
    obj: Slot,
    mos: Slot,
    mos_abstract: Slot,
    obj_paths: Slot,
    channel: Slot,
) -> Front
    requires { AllFit tables.Item (take 7 (places (columns tables.Item))) (parts_of (id ∷ slug ∷ obj ∷ mos ∷ mos_abstract ∷ obj_paths ∷ channel ∷ [])) }
    ensures { joined (must fields.ItemID result.id ∷ maybe fields.ItemSlug result.slug ∷ must fields.ObjID result.obj ∷ must fields.MosID result.mos ∷ maybe_raw fields.MosAbstract result.mos_abstract ∷ maybe_raw fields.ObjPaths result.obj_paths ∷ maybe fields.ItemChannel result.channel ∷ []) ≡ parts_events (take 7 (places (columns tables.Item))) (parts_of (id ∷ slug ∷ obj ∷ mos ∷ mos_abstract ∷ obj_paths ∷ channel ∷ [])) }
{
    Front {
        id: id.key(),
        slug: slug.optional_slug(),
        obj: obj.opt_id(),
        mos: mos.opt_id(),
        mos_abstract: mos_abstract.optional_raw(),
        obj_paths: obj_paths.optional_raw(),
        channel: channel.optional_text(),
    }
}

/// The item of these parts.
fn item_front(slots: [Slot; 7]) -> Front
    requires { AllFit tables.Item (take 7 (places (columns tables.Item))) (parts_of slots) }
    ensures { joined (must fields.ItemID result.id ∷ maybe fields.ItemSlug result.slug ∷ must fields.ObjID result.obj ∷ must fields.MosID result.mos ∷ maybe_raw fields.MosAbstract result.mos_abstract ∷ maybe_raw fields.ObjPaths result.obj_paths ∷ maybe fields.ItemChannel result.channel ∷ []) ≡ parts_events (take 7 (places (columns tables.Item))) (parts_of slots) }
{
    let [id, slug, obj, mos, mos_abstract, obj_paths, channel] = slots;
    item_front_with(id, slug, obj, mos, mos_abstract, obj_paths, channel)
}

/// The item of these parts.
fn item_back_with(
    alloc: Global,
    ed_start: Slot,
    ed_dur: Slot,
    user_timing_dur: Slot,
    trigger: Slot,
    macro_in: Slot,
    macro_out: Slot,
    metadata: Slot,
    others: Slot,
) -> Result<Back, NoMemory>
    requires { AllFit tables.Item (drop 7 (places (columns tables.Item))) (parts_of (ed_start ∷ ed_dur ∷ user_timing_dur ∷ trigger ∷ macro_in ∷ macro_out ∷ metadata ∷ others ∷ [])) }
    ensures { IfOk result (λ v. joined (maybe_as samples_text fields.ItemEdStart v.ed_start ∷ maybe_as samples_text fields.ItemEdDur v.ed_dur ∷ maybe_as samples_text fields.ItemUserTimingDur v.user_timing_dur ∷ maybe fields.ItemTrigger v.trigger ∷ maybe fields.MacroIn v.macro_in ∷ maybe fields.MacroOut v.macro_out ∷ raws fields.Metadata v.metadata ∷ raws fields.Kept v.others ∷ []) ≡ parts_events (drop 7 (places (columns tables.Item))) (parts_of (ed_start ∷ ed_dur ∷ user_timing_dur ∷ trigger ∷ macro_in ∷ macro_out ∷ metadata ∷ others ∷ []))) }
{
    let ((ed_start, ed_dur, user_timing_dur), (trigger, macro_in, macro_out), (metadata, others)) =
        triple_ok(
            triple_ok(
                ed_start.optional_samples(alloc),
                ed_dur.optional_samples(alloc),
                user_timing_dur.optional_samples(alloc),
            ),
            triple_ok(
                Ok(trigger.optional_text()),
                Ok(macro_in.optional_text()),
                Ok(macro_out.optional_text()),
            ),
            pair_ok(metadata.raws(alloc), others.raws(alloc)),
        )?;
    Ok(Back {
        ed_start,
        ed_dur,
        user_timing_dur,
        trigger,
        macro_in,
        macro_out,
        metadata,
        others,
    })
}

/// The item of these parts.
fn item_back(alloc: Global, slots: [Slot; 8]) -> Result<Back, NoMemory>
    requires { AllFit tables.Item (drop 7 (places (columns tables.Item))) (parts_of slots) }
    ensures { IfOk result (λ v. joined (maybe_as samples_text fields.ItemEdStart v.ed_start ∷ maybe_as samples_text fields.ItemEdDur v.ed_dur ∷ maybe_as samples_text fields.ItemUserTimingDur v.user_timing_dur ∷ maybe fields.ItemTrigger v.trigger ∷ maybe fields.MacroIn v.macro_in ∷ maybe fields.MacroOut v.macro_out ∷ raws fields.Metadata v.metadata ∷ raws fields.Kept v.others ∷ []) ≡ parts_events (drop 7 (places (columns tables.Item))) (parts_of slots)) }
{
    let [
        ed_start,
        ed_dur,
        user_timing_dur,
        trigger,
        macro_in,
        macro_out,
        metadata,
        others,
    ] = slots;
    item_back_with(
        alloc,
        ed_start,
        ed_dur,
        user_timing_dur,
        trigger,
        macro_in,
        macro_out,
        metadata,
        others,
    )
}

/// The item with these fields.
fn item_with(front: Front, back: Back) -> Item
    ensures { item_events result ≡ joined (must fields.ItemID front.id ∷ maybe fields.ItemSlug front.slug ∷ must fields.ObjID front.obj ∷ must fields.MosID front.mos ∷ maybe_raw fields.MosAbstract front.mos_abstract ∷ maybe_raw fields.ObjPaths front.obj_paths ∷ maybe fields.ItemChannel front.channel ∷ []) ++ joined (maybe_as samples_text fields.ItemEdStart back.ed_start ∷ maybe_as samples_text fields.ItemEdDur back.ed_dur ∷ maybe_as samples_text fields.ItemUserTimingDur back.user_timing_dur ∷ maybe fields.ItemTrigger back.trigger ∷ maybe fields.MacroIn back.macro_in ∷ maybe fields.MacroOut back.macro_out ∷ raws fields.Metadata back.metadata ∷ raws fields.Kept back.others ∷ []) }
{
    let Front {
        id,
        slug,
        obj,
        mos,
        mos_abstract,
        obj_paths,
        channel,
    } = front;
    let Back {
        ed_start,
        ed_dur,
        user_timing_dur,
        trigger,
        macro_in,
        macro_out,
        metadata,
        others,
    } = back;
    Item {
        id,
        slug,
        obj,
        mos,
        mos_abstract,
        obj_paths,
        channel,
        ed_start,
        ed_dur,
        user_timing_dur,
        trigger,
        macro_in,
        macro_out,
        metadata,
        others,
    }
}

/// The item of these events. The only error is that memory runs out.
pub fn item_of(alloc: Global, cursor: Cursor) -> Result<Item, NoMemory>
    requires { (taken : List Text_) × IsAccepted tables.Item taken cursor }
    ensures { IfOk result (λ v. item_events v ≡ cursor) }
{
    let halves = halves_of::<15, 7, 8>(alloc, Table::Item, cursor)?;
    let (front, back) = halves;
    let (front, back) = pair_ok(Ok(item_front(front)), item_back(alloc, back))?;
    Ok(item_with(front, back))
}

/// The items of these records, in order. The only error is that memory runs out.
#[tactic(auto, using(mos_cursor::proofs::Read::read_start, mos_cursor::proofs::Read::read_next, mos_cursor::proofs::Read::read_more, mos_cursor::proofs::Read::read_end))]
fn read_items(alloc: Global, inner: Sequence<Nested>) -> Result<Items, NoMemory>
    requires { AllByRecursion (Holds tables.Item) inner }
    ensures { IfOk result (λ items. map item_events items ≡ map inner_events inner) }
{
    let mut rest = inner.into_vec();
    rest.reverse();
    let mut items = Items::new(alloc);
    'next: while let Some(record) = rest.pop() {
        items.push(item_of(alloc, record.inner)?)?;
    }
    Ok(items)
}

/// The items of these records, in order. Those of a story have distinct itemIDs.
/// The only error is that memory runs out.
pub fn items_of(alloc: Global, inner: Sequence<Nested>) -> Result<Items, NoMemory>
    requires { (t : Table_) × RecordsFit t tables.Item [] (map record_of inner) }
    ensures events { IfOk result (λ items. items_events items ≡ flat_map (record_events (name_of fields.ItemTag)) (map record_of inner)) }
    ensures distinct { IfOk result (λ items. RecordsFit tables.Story tables.Item [] (map record_of inner) → AreDistinct (item_ids items)) }
{
    let items = read_items(alloc, inner)?;
    Ok(items)
}
