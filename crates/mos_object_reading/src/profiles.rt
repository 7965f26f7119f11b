//! The profiles that a machine supports, from their events.
ghost use Rattle.std.specs.Prelude.{◌≡◌, ◌≤◌, [], ◌∷◌, Some, IfOk, map};
ghost use Rattle.std.specs.Fmt.{decimal};
ghost use Rattle.std.specs.List.{AllByRecursion};
ghost use Rattle.mos_fields.specs.Fields.{name_of};
ghost use Rattle.mos_fields.specs.Forms.{reads};
ghost use Rattle.mos_fields.specs.declared.field.Field.TheVariants as fields;
ghost use Rattle.mos_fields.specs.declared.form.Form.TheVariants as forms;
ghost use Rattle.mos_tables.specs.Tables.{columns};
ghost use Rattle.mos_tables.specs.declared.table.Table.TheVariants as tables;
ghost use Rattle.mos_values.specs.Parts.{attribute as attribute_with};
ghost use Rattle.mos_values.specs.Views.{answer_text, device_type_text, profile_events, profiles_events, supported_events};
ghost use Rattle.mos_cursor.specs.Accepted.{AllFit, IsGiven, LeafFits, OptionalRecord, RecordFits};
ghost use Rattle.mos_cursor.specs.Parts.{leaf_event, part_events, parts_events, places, record_events};
ghost use Rattle.mos_cursor.specs.Slots.{leaf_of, part_of, parts_of, record_of};
ghost use Rattle.mos_events.specs.EventView.{attributes_of};

use mos_cursor::{LeafText, Nested, Slot, record_slots};
use mos_events::KnownAttribute;
use mos_fields::{NoMemory, Text};
use mos_tables::Table;
use mos_values::{DeviceType, Profile, Profiles, Sequence, SupportedProfiles};
use std::alloc::Global;

/// The number of a profile, by its attribute.
#[tactic(auto, using(crate::proofs::ProfileLemmas::number_value))]
fn number_of(given: Option<KnownAttribute>) -> u8
    requires { IsGiven (Some fields.Number) (attributes_of given) }
    ensures digit { result ≤ 9 }
    ensures value { attributes_of given ≡ attribute_with fields.Number (decimal result) ∷ [] }
{
    match given {
        Some(KnownAttribute::Number(number)) => number,
        _ => unreachable!(),
    }
}

/// Whether a profile is supported, by a canonical text: the two words differ in their lengths.
#[tactic(auto, using(crate::proofs::WordLemmas::is_yes, crate::proofs::WordLemmas::is_no))]
fn is_supported(text: &Text) -> bool
    requires { reads forms.Profile [] text.now ≡ Some text.now }
    ensures { answer_text result ≡ text.now }
{
    if text.len() == 3 {
        return true;
    }
    false
}

/// The profile of this text.
#[tactic(auto, unfolding(mos_values::specs::Views::profile_events))]
fn profile_of(leaf: &LeafText) -> Profile
    requires { LeafFits forms.Profile (leaf_of leaf.now) }
    ensures { profile_events result ≡ leaf_event (name_of fields.MosProfile) (leaf_of leaf.now) ∷ [] }
{
    let number = number_of(leaf.attribute);
    let supported = is_supported(&leaf.text);
    Profile { number, supported }
}

/// The profiles of these texts, in order. The only error is that memory runs out.
#[tactic(auto, using(mos_cursor::proofs::Read::read_start, mos_cursor::proofs::Read::read_next, mos_cursor::proofs::Read::read_more, mos_cursor::proofs::Read::read_end))]
fn read_profiles(alloc: Global, leaves: Sequence<LeafText>) -> Result<Profiles, NoMemory>
    requires { AllByRecursion (λ l. LeafFits forms.Profile (leaf_of l)) leaves }
    ensures { IfOk result (λ ps. map profile_events ps ≡ map (λ l. leaf_event (name_of fields.MosProfile) (leaf_of l) ∷ []) leaves) }
{
    let mut rest = leaves.into_vec();
    rest.reverse();
    let mut profiles = Profiles::new(alloc);
    'next: while let Some(leaf) = rest.pop() {
        profiles.push(profile_of(&leaf))?;
    }
    Ok(profiles)
}

/// The profiles of these texts, in order.
fn profiles_in(alloc: Global, leaves: Sequence<LeafText>) -> Result<Profiles, NoMemory>
    requires { AllByRecursion (LeafFits forms.Profile) (map leaf_of leaves) }
    ensures { IfOk result (λ ps. profiles_events ps ≡ map (leaf_event (name_of fields.MosProfile)) (map leaf_of leaves)) }
{
    let profiles = read_profiles(alloc, leaves)?;
    Ok(profiles)
}

/// The profiles of this part.
fn profiles_with(alloc: Global, profiles: Slot) -> Result<Profiles, NoMemory>
    requires { AllFit tables.SupportedProfiles (places (columns tables.SupportedProfiles)) (parts_of (profiles ∷ [])) }
    ensures { IfOk result (λ ps. profiles_events ps ≡ parts_events (places (columns tables.SupportedProfiles)) (parts_of (profiles ∷ []))) }
{
    match profiles {
        Slot::Leaves(leaves) => profiles_in(alloc, leaves),
        _ => unreachable!(),
    }
}

/// What kind of machine it is, by the attribute.
fn device_type_of(given: Option<KnownAttribute>) -> DeviceType
    requires { IsGiven (Some fields.DeviceType) (attributes_of given) }
    ensures { attributes_of given ≡ attribute_with fields.DeviceType (device_type_text result) ∷ [] }
{
    match given {
        Some(KnownAttribute::Ncs) => DeviceType::Ncs,
        Some(KnownAttribute::Mos) => DeviceType::Mos,
        _ => unreachable!(),
    }
}

/// The profiles of this record.
#[tactic(auto, unfolding(mos_values::specs::Views::supported_events))]
fn supported_of(alloc: Global, inside: Nested) -> Result<SupportedProfiles, NoMemory>
    requires { RecordFits tables.ListMachInfo tables.SupportedProfiles [] (record_of inside) }
    ensures { IfOk result (λ s. supported_events (Some s) ≡ record_events (name_of fields.SupportedProfilesTag) (record_of inside)) }
{
    let Nested { attribute, inner } = inside;
    let device_type = device_type_of(attribute);
    let slots: [Slot; 1] = record_slots::<1>(alloc, Table::SupportedProfiles, inner)?;
    let [profiles] = slots;
    let profiles = profiles_with(alloc, profiles)?;
    Ok(SupportedProfiles {
        device_type,
        profiles,
    })
}

/// The profiles of a part that may be absent.
#[tactic(auto, unfolding(mos_values::specs::Views::supported_events))]
pub(crate) fn optional_supported(
    alloc: Global,
    slot: Slot,
) -> Result<Option<SupportedProfiles>, NoMemory>
    requires { OptionalRecord tables.ListMachInfo tables.SupportedProfiles (part_of slot) }
    ensures { IfOk result (λ s. supported_events s ≡ part_events fields.SupportedProfilesTag (part_of slot)) }
{
    match slot {
        Slot::Record(inside) => Ok(Some(supported_of(alloc, inside)?)),
        Slot::Absent => Ok(None),
        _ => unreachable!(),
    }
}
