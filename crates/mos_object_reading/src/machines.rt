//! What machines say of themselves, from its events.
ghost use Rattle.std.specs.Prelude.{◌≡◌, ◌++◌, List, [], ◌∷◌, IfOk, drop, take};
ghost use Rattle.mos_fields.specs.Characters.{Text as Text_};
ghost use Rattle.mos_fields.specs.Values.{time_text};
ghost use Rattle.mos_fields.specs.declared.field.Field.TheVariants as fields;
ghost use Rattle.mos_tables.specs.Tables.{columns};
ghost use Rattle.mos_tables.specs.declared.table.Table.TheVariants as tables;
ghost use Rattle.mos_values.specs.Parts.{joined, maybe, maybe_as, raws};
ghost use Rattle.mos_values.specs.Views.{mach_info_events, supported_events};
ghost use Rattle.mos_cursor.specs.Accepted.{AllFit, IsAccepted};
ghost use Rattle.mos_cursor.specs.Parts.{parts_events, places};
ghost use Rattle.mos_cursor.specs.Slots.{parts_of};

use crate::profiles::optional_supported;
use mos_cursor::{Cursor, Slot, halves_of};
use mos_fields::{MosTime, NoMemory, Text, pair_ok, triple_ok};
use mos_tables::Table;
use mos_values::{MachInfo, SupportedProfiles, Unreads};
use std::alloc::Global;

/// What a machine is.
#[derive(Drop)]
struct Front {
    manufacturer: Option<Text>,
    model: Option<Text>,
    hw_rev: Option<Text>,
    sw_rev: Option<Text>,
    dom: Option<Text>,
    serial_number: Option<Text>,
    id: Option<Text>,
}

/// How a machine runs, what it supports, and its raw elements.
#[derive(Drop)]
struct Back {
    time: Option<MosTime>,
    op_time: Option<Text>,
    mos_rev: Option<Text>,
    supported_profiles: Option<SupportedProfiles>,
    default_active_x: Unreads,
    metadata: Unreads,
    others: Unreads,
}

/// The description of a machine of these parts.
fn machine_front_with(
    manufacturer: Slot,
    model: Slot,
    hw_rev: Slot,
    sw_rev: Slot,
    dom: Slot,
    serial_number: Slot,
    id: Slot,
) -> Front
    requires { AllFit tables.ListMachInfo (take 7 (places (columns tables.ListMachInfo))) (parts_of (manufacturer ∷ model ∷ hw_rev ∷ sw_rev ∷ dom ∷ serial_number ∷ id ∷ [])) }
    ensures { joined (maybe fields.Manufacturer result.manufacturer ∷ maybe fields.ModelTag result.model ∷ maybe fields.HwRev result.hw_rev ∷ maybe fields.SwRev result.sw_rev ∷ maybe fields.Dom result.dom ∷ maybe fields.SerialNumber result.serial_number ∷ maybe fields.MachineID result.id ∷ []) ≡ parts_events (take 7 (places (columns tables.ListMachInfo))) (parts_of (manufacturer ∷ model ∷ hw_rev ∷ sw_rev ∷ dom ∷ serial_number ∷ id ∷ [])) }
{
    Front {
        manufacturer: manufacturer.optional_text(),
        model: model.optional_text(),
        hw_rev: hw_rev.optional_text(),
        sw_rev: sw_rev.optional_text(),
        dom: dom.optional_text(),
        serial_number: serial_number.optional_text(),
        id: id.optional_text(),
    }
}

/// The description of a machine of these parts.
fn machine_front(slots: [Slot; 7]) -> Front
    requires { AllFit tables.ListMachInfo (take 7 (places (columns tables.ListMachInfo))) (parts_of slots) }
    ensures { joined (maybe fields.Manufacturer result.manufacturer ∷ maybe fields.ModelTag result.model ∷ maybe fields.HwRev result.hw_rev ∷ maybe fields.SwRev result.sw_rev ∷ maybe fields.Dom result.dom ∷ maybe fields.SerialNumber result.serial_number ∷ maybe fields.MachineID result.id ∷ []) ≡ parts_events (take 7 (places (columns tables.ListMachInfo))) (parts_of slots) }
{
    let [manufacturer, model, hw_rev, sw_rev, dom, serial_number, id] = slots;
    machine_front_with(manufacturer, model, hw_rev, sw_rev, dom, serial_number, id)
}

/// The description of a machine of these parts.
fn machine_back_with(
    alloc: Global,
    time: Slot,
    op_time: Slot,
    mos_rev: Slot,
    supported_profiles: Slot,
    default_active_x: Slot,
    metadata: Slot,
    others: Slot,
) -> Result<Back, NoMemory>
    requires { AllFit tables.ListMachInfo (drop 7 (places (columns tables.ListMachInfo))) (parts_of (time ∷ op_time ∷ mos_rev ∷ supported_profiles ∷ default_active_x ∷ metadata ∷ others ∷ [])) }
    ensures { IfOk result (λ v. joined (maybe_as time_text fields.TimeTag v.time ∷ maybe fields.OpTime v.op_time ∷ maybe fields.MosRev v.mos_rev ∷ supported_events v.supported_profiles ∷ raws fields.DefaultActiveX v.default_active_x ∷ raws fields.Metadata v.metadata ∷ raws fields.Kept v.others ∷ []) ≡ parts_events (drop 7 (places (columns tables.ListMachInfo))) (parts_of (time ∷ op_time ∷ mos_rev ∷ supported_profiles ∷ default_active_x ∷ metadata ∷ others ∷ []))) }
{
    let ((time, op_time, mos_rev), (supported_profiles, default_active_x), (metadata, others)) =
        triple_ok(
            triple_ok(
                time.optional_time(alloc),
                Ok(op_time.optional_text()),
                Ok(mos_rev.optional_text()),
            ),
            pair_ok(
                optional_supported(alloc, supported_profiles),
                default_active_x.raws(alloc),
            ),
            pair_ok(metadata.raws(alloc), others.raws(alloc)),
        )?;
    Ok(Back {
        time,
        op_time,
        mos_rev,
        supported_profiles,
        default_active_x,
        metadata,
        others,
    })
}

/// The description of a machine of these parts.
fn machine_back(alloc: Global, slots: [Slot; 7]) -> Result<Back, NoMemory>
    requires { AllFit tables.ListMachInfo (drop 7 (places (columns tables.ListMachInfo))) (parts_of slots) }
    ensures { IfOk result (λ v. joined (maybe_as time_text fields.TimeTag v.time ∷ maybe fields.OpTime v.op_time ∷ maybe fields.MosRev v.mos_rev ∷ supported_events v.supported_profiles ∷ raws fields.DefaultActiveX v.default_active_x ∷ raws fields.Metadata v.metadata ∷ raws fields.Kept v.others ∷ []) ≡ parts_events (drop 7 (places (columns tables.ListMachInfo))) (parts_of slots)) }
{
    let [
        time,
        op_time,
        mos_rev,
        supported_profiles,
        default_active_x,
        metadata,
        others,
    ] = slots;
    machine_back_with(
        alloc,
        time,
        op_time,
        mos_rev,
        supported_profiles,
        default_active_x,
        metadata,
        others,
    )
}

/// The description of a machine with these fields.
fn machine_with(front: Front, back: Back) -> MachInfo
    ensures { mach_info_events result ≡ joined (maybe fields.Manufacturer front.manufacturer ∷ maybe fields.ModelTag front.model ∷ maybe fields.HwRev front.hw_rev ∷ maybe fields.SwRev front.sw_rev ∷ maybe fields.Dom front.dom ∷ maybe fields.SerialNumber front.serial_number ∷ maybe fields.MachineID front.id ∷ []) ++ joined (maybe_as time_text fields.TimeTag back.time ∷ maybe fields.OpTime back.op_time ∷ maybe fields.MosRev back.mos_rev ∷ supported_events back.supported_profiles ∷ raws fields.DefaultActiveX back.default_active_x ∷ raws fields.Metadata back.metadata ∷ raws fields.Kept back.others ∷ []) }
{
    let Front {
        manufacturer,
        model,
        hw_rev,
        sw_rev,
        dom,
        serial_number,
        id,
    } = front;
    let Back {
        time,
        op_time,
        mos_rev,
        supported_profiles,
        default_active_x,
        metadata,
        others,
    } = back;
    MachInfo {
        manufacturer,
        model,
        hw_rev,
        sw_rev,
        dom,
        serial_number,
        id,
        time,
        op_time,
        mos_rev,
        supported_profiles,
        default_active_x,
        metadata,
        others,
    }
}

/// The description of a machine of these events. The only error is that memory runs out.
pub fn mach_info_of(alloc: Global, cursor: Cursor) -> Result<MachInfo, NoMemory>
    requires { (taken : List Text_) × IsAccepted tables.ListMachInfo taken cursor }
    ensures { IfOk result (λ v. mach_info_events v ≡ cursor) }
{
    let halves = halves_of::<14, 7, 7>(alloc, Table::ListMachInfo, cursor)?;
    let (front, back) = halves;
    let (front, back) = pair_ok(Ok(machine_front(front)), machine_back(alloc, back))?;
    Ok(machine_with(front, back))
}
