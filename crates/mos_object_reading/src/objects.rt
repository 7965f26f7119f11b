//! Media objects from their events.
ghost use Rattle.std.specs.Prelude.{◌≡◌, ◌++◌, List, [], ◌∷◌, IfOk, drop, take};
ghost use Rattle.mos_fields.specs.Characters.{Text as Text_};
ghost use Rattle.mos_fields.specs.Values.{air_text, obj_type_text, rev_text, samples_text};
ghost use Rattle.mos_fields.specs.declared.field.Field.TheVariants as fields;
ghost use Rattle.mos_tables.specs.Tables.{columns};
ghost use Rattle.mos_tables.specs.declared.table.Table.TheVariants as tables;
ghost use Rattle.mos_values.specs.Parts.{joined, maybe, maybe_as, maybe_raw, must, raws};
ghost use Rattle.mos_values.specs.Views.{mos_obj_events};
ghost use Rattle.mos_cursor.specs.Accepted.{AllFit, IsAccepted};
ghost use Rattle.mos_cursor.specs.Parts.{parts_events, places};
ghost use Rattle.mos_cursor.specs.Slots.{parts_of};

use mos_cursor::{Cursor, Slot, halves_of};
use mos_fields::{
    Air, Id, NoMemory, ObjType, Rev, Samples, Slug, Text, Unread, pair_ok, triple_ok,
};
use mos_tables::Table;
use mos_values::{MosObj, Unreads};
use std::alloc::Global;

/// What an object is.
#[derive(Drop)]
struct Front {
    id: Id,
    slug: Option<Slug>,
    mos_abstract: Option<Unread>,
    group: Option<Text>,
    obj_type: Option<ObjType>,
    time_base: Option<Samples>,
    rev: Option<Rev>,
    dur: Option<Samples>,
    status: Option<Text>,
}

/// The parts of what an object is.
struct FrontSlots {
    id: Slot,
    slug: Slot,
    mos_abstract: Slot,
    group: Slot,
    obj_type: Slot,
    time_base: Slot,
    rev: Slot,
    dur: Slot,
    status: Slot,
}

/// How an object may be used, where it comes from, and its raw elements.
#[derive(Drop)]
struct Back {
    air: Option<Air>,
    obj_paths: Option<Unread>,
    created_by: Option<Text>,
    created: Option<Text>,
    changed_by: Option<Text>,
    changed: Option<Text>,
    description: Option<Unread>,
    metadata: Unreads,
    others: Unreads,
}

/// The object of these parts.
fn object_front_with(
    alloc: Global,
    id: Slot,
    slug: Slot,
    mos_abstract: Slot,
    group: Slot,
    obj_type: Slot,
    time_base: Slot,
    rev: Slot,
    dur: Slot,
    status: Slot,
) -> Result<Front, NoMemory>
    requires { AllFit tables.MosObj (take 9 (places (columns tables.MosObj))) (parts_of (id ∷ slug ∷ mos_abstract ∷ group ∷ obj_type ∷ time_base ∷ rev ∷ dur ∷ status ∷ [])) }
    ensures { IfOk result (λ v. joined (must fields.ObjID v.id ∷ maybe fields.ObjSlug v.slug ∷ maybe_raw fields.MosAbstract v.mos_abstract ∷ maybe fields.ObjGroup v.group ∷ maybe_as obj_type_text fields.ObjType v.obj_type ∷ maybe_as samples_text fields.ObjTB v.time_base ∷ maybe_as rev_text fields.ObjRev v.rev ∷ maybe_as samples_text fields.ObjDur v.dur ∷ maybe fields.Status v.status ∷ []) ≡ parts_events (take 9 (places (columns tables.MosObj))) (parts_of (id ∷ slug ∷ mos_abstract ∷ group ∷ obj_type ∷ time_base ∷ rev ∷ dur ∷ status ∷ []))) }
{
    let ((id, slug, mos_abstract), (group, obj_type, time_base), (rev, dur, status)) = triple_ok(
        triple_ok(
            Ok(id.id()),
            Ok(slug.optional_slug()),
            Ok(mos_abstract.optional_raw()),
        ),
        triple_ok(
            Ok(group.optional_text()),
            obj_type.optional_obj_type(alloc),
            time_base.optional_samples(alloc),
        ),
        triple_ok(
            rev.optional_rev(alloc),
            dur.optional_samples(alloc),
            Ok(status.optional_text()),
        ),
    )?;
    Ok(Front {
        id,
        slug,
        mos_abstract,
        group,
        obj_type,
        time_base,
        rev,
        dur,
        status,
    })
}

/// These parts by their names.
#[tactic(auto, using(crate::proofs::ArrayLemmas::nine_slots))]
fn front_slots(slots: [Slot; 9]) -> FrontSlots
    ensures { slots ≡ result.id ∷ result.slug ∷ result.mos_abstract ∷ result.group ∷ result.obj_type ∷ result.time_base ∷ result.rev ∷ result.dur ∷ result.status ∷ [] }
{
    let [
        id,
        slug,
        mos_abstract,
        group,
        obj_type,
        time_base,
        rev,
        dur,
        status,
    ] = slots;
    FrontSlots {
        id,
        slug,
        mos_abstract,
        group,
        obj_type,
        time_base,
        rev,
        dur,
        status,
    }
}

/// The object of these parts.
fn object_front(alloc: Global, slots: [Slot; 9]) -> Result<Front, NoMemory>
    requires { AllFit tables.MosObj (take 9 (places (columns tables.MosObj))) (parts_of slots) }
    ensures { IfOk result (λ v. joined (must fields.ObjID v.id ∷ maybe fields.ObjSlug v.slug ∷ maybe_raw fields.MosAbstract v.mos_abstract ∷ maybe fields.ObjGroup v.group ∷ maybe_as obj_type_text fields.ObjType v.obj_type ∷ maybe_as samples_text fields.ObjTB v.time_base ∷ maybe_as rev_text fields.ObjRev v.rev ∷ maybe_as samples_text fields.ObjDur v.dur ∷ maybe fields.Status v.status ∷ []) ≡ parts_events (take 9 (places (columns tables.MosObj))) (parts_of slots)) }
{
    let named = front_slots(slots);
    let FrontSlots {
        id,
        slug,
        mos_abstract,
        group,
        obj_type,
        time_base,
        rev,
        dur,
        status,
    } = named;
    object_front_with(
        alloc,
        id,
        slug,
        mos_abstract,
        group,
        obj_type,
        time_base,
        rev,
        dur,
        status,
    )
}

/// The object of these parts.
fn object_back_with(
    alloc: Global,
    air: Slot,
    obj_paths: Slot,
    created_by: Slot,
    created: Slot,
    changed_by: Slot,
    changed: Slot,
    description: Slot,
    metadata: Slot,
    others: Slot,
) -> Result<Back, NoMemory>
    requires { AllFit tables.MosObj (drop 9 (places (columns tables.MosObj))) (parts_of (air ∷ obj_paths ∷ created_by ∷ created ∷ changed_by ∷ changed ∷ description ∷ metadata ∷ others ∷ [])) }
    ensures { IfOk result (λ v. joined (maybe_as air_text fields.ObjAir v.air ∷ maybe_raw fields.ObjPaths v.obj_paths ∷ maybe fields.CreatedBy v.created_by ∷ maybe fields.Created v.created ∷ maybe fields.ChangedBy v.changed_by ∷ maybe fields.Changed v.changed ∷ maybe_raw fields.Description v.description ∷ raws fields.Metadata v.metadata ∷ raws fields.Kept v.others ∷ []) ≡ parts_events (drop 9 (places (columns tables.MosObj))) (parts_of (air ∷ obj_paths ∷ created_by ∷ created ∷ changed_by ∷ changed ∷ description ∷ metadata ∷ others ∷ []))) }
{
    let (
        (air, obj_paths, created_by),
        (created, changed_by, changed),
        (description, metadata, others),
    ) = triple_ok(
        triple_ok(
            air.optional_air(alloc),
            Ok(obj_paths.optional_raw()),
            Ok(created_by.optional_text()),
        ),
        triple_ok(
            Ok(created.optional_text()),
            Ok(changed_by.optional_text()),
            Ok(changed.optional_text()),
        ),
        triple_ok(
            Ok(description.optional_raw()),
            metadata.raws(alloc),
            others.raws(alloc),
        ),
    )?;
    Ok(Back {
        air,
        obj_paths,
        created_by,
        created,
        changed_by,
        changed,
        description,
        metadata,
        others,
    })
}

/// The object of these parts.
fn object_back(alloc: Global, slots: [Slot; 9]) -> Result<Back, NoMemory>
    requires { AllFit tables.MosObj (drop 9 (places (columns tables.MosObj))) (parts_of slots) }
    ensures { IfOk result (λ v. joined (maybe_as air_text fields.ObjAir v.air ∷ maybe_raw fields.ObjPaths v.obj_paths ∷ maybe fields.CreatedBy v.created_by ∷ maybe fields.Created v.created ∷ maybe fields.ChangedBy v.changed_by ∷ maybe fields.Changed v.changed ∷ maybe_raw fields.Description v.description ∷ raws fields.Metadata v.metadata ∷ raws fields.Kept v.others ∷ []) ≡ parts_events (drop 9 (places (columns tables.MosObj))) (parts_of slots)) }
{
    let [
        air,
        obj_paths,
        created_by,
        created,
        changed_by,
        changed,
        description,
        metadata,
        others,
    ] = slots;
    object_back_with(
        alloc,
        air,
        obj_paths,
        created_by,
        created,
        changed_by,
        changed,
        description,
        metadata,
        others,
    )
}

/// The object with these fields.
fn object_with(front: Front, back: Back) -> MosObj
    ensures { mos_obj_events result ≡ joined (must fields.ObjID front.id ∷ maybe fields.ObjSlug front.slug ∷ maybe_raw fields.MosAbstract front.mos_abstract ∷ maybe fields.ObjGroup front.group ∷ maybe_as obj_type_text fields.ObjType front.obj_type ∷ maybe_as samples_text fields.ObjTB front.time_base ∷ maybe_as rev_text fields.ObjRev front.rev ∷ maybe_as samples_text fields.ObjDur front.dur ∷ maybe fields.Status front.status ∷ []) ++ joined (maybe_as air_text fields.ObjAir back.air ∷ maybe_raw fields.ObjPaths back.obj_paths ∷ maybe fields.CreatedBy back.created_by ∷ maybe fields.Created back.created ∷ maybe fields.ChangedBy back.changed_by ∷ maybe fields.Changed back.changed ∷ maybe_raw fields.Description back.description ∷ raws fields.Metadata back.metadata ∷ raws fields.Kept back.others ∷ []) }
{
    let Front {
        id,
        slug,
        mos_abstract,
        group,
        obj_type,
        time_base,
        rev,
        dur,
        status,
    } = front;
    let Back {
        air,
        obj_paths,
        created_by,
        created,
        changed_by,
        changed,
        description,
        metadata,
        others,
    } = back;
    MosObj {
        id,
        slug,
        mos_abstract,
        group,
        obj_type,
        time_base,
        rev,
        dur,
        status,
        air,
        obj_paths,
        created_by,
        created,
        changed_by,
        changed,
        description,
        metadata,
        others,
    }
}

/// The object of these events. The only error is that memory runs out.
pub fn object_of(alloc: Global, cursor: Cursor) -> Result<MosObj, NoMemory>
    requires { (taken : List Text_) × IsAccepted tables.MosObj taken cursor }
    ensures { IfOk result (λ v. mos_obj_events v ≡ cursor) }
{
    let halves = halves_of::<18, 9, 9>(alloc, Table::MosObj, cursor)?;
    let (front, back) = halves;
    let (front, back) = pair_ok(object_front(alloc, front), object_back(alloc, back))?;
    Ok(object_with(front, back))
}
