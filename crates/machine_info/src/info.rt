//! What a newsroom system and a gateway say of themselves.
ghost use Rattle.std.specs.Prelude.{◌≡◌, None, IfOk, MatchResult, map};
ghost use Rattle.mos_values.specs.declared.profile.DeviceType.TheVariants.{Ncs, Mos};
ghost use Rattle.machine_info.specs.Info.{IsInfo, revision as revision_text, supported, support_of};

use end_settings::GateSettings;
use mos_fields::{Id, NoMemory, Text, pair_ok, triple_ok};
use mos_values::{DeviceType, MachInfo, Profile, Profiles, Sequence, SupportedProfiles, Unreads};
use std::alloc::Global;

// The revision of the protocol.
fn revision(alloc: Global) -> Result<Text, NoMemory>
    ensures { IfOk result (λ t. t ≡ revision_text) }
{
    match Text::try_new(alloc, &['2', '.', '8', '.', '5']) {
        Ok(text) => Ok(text),
        Err(_) => Err(NoMemory),
    }
}

// The profiles 0 to 7, of which 0, 1, 2 and 4 are supported.
fn profiles(alloc: Global) -> Result<Profiles, NoMemory>
    ensures { IfOk result (λ profiles. map support_of profiles ≡ supported) }
{
    let profiles = [
        Profile {
            number: 0,
            supported: true,
        },
        Profile {
            number: 1,
            supported: true,
        },
        Profile {
            number: 2,
            supported: true,
        },
        Profile {
            number: 3,
            supported: false,
        },
        Profile {
            number: 4,
            supported: true,
        },
        Profile {
            number: 5,
            supported: false,
        },
        Profile {
            number: 6,
            supported: false,
        },
        Profile {
            number: 7,
            supported: false,
        },
    ];
    Ok(Sequence::from_vec(Vec::from_slice(alloc, &profiles)?))
}

// The text again, where there is one.
fn copy_of(text: &Option<Text>) -> Result<Option<Text>, NoMemory>
    ensures { IfOk result (λ t. t ≡ text.now) }
{
    match text {
        Some(text) => Ok(Some(text.try_clone()?)),
        None => Ok(None),
    }
}

// A machine of this type and name, which was made by this manufacturer, as this model.
fn info(
    alloc: Global,
    device_type: DeviceType,
    id: Result<Id, NoMemory>,
    manufacturer: Result<Option<Text>, NoMemory>,
    model: Result<Option<Text>, NoMemory>,
) -> Result<MachInfo, NoMemory>
    ensures { IfOk result (λ m. MatchResult id (λ id. MatchResult manufacturer (λ manufacturer. MatchResult model (λ model. IsInfo device_type id manufacturer model m) (λ _. ⊥)) (λ _. ⊥)) (λ _. ⊥)) }
{
    let ((id, manufacturer, model), (profiles, revision)) = pair_ok(
        triple_ok(id, manufacturer, model),
        pair_ok(profiles(alloc), revision(alloc)),
    )?;
    Ok(MachInfo {
        manufacturer,
        model,
        hw_rev: None,
        sw_rev: None,
        dom: None,
        serial_number: None,
        id: Some(id.into_text()),
        time: None,
        op_time: None,
        mos_rev: Some(revision),
        supported_profiles: Some(SupportedProfiles {
            device_type,
            profiles,
        }),
        default_active_x: Unreads::new(alloc),
        metadata: Unreads::new(alloc),
        others: Unreads::new(alloc),
    })
}

/// What the newsroom system of this ncsID says of itself: its name, the revision of MOS, and the profiles of a newsroom
/// system. The only error is that memory runs out.
pub fn server_info(alloc: Global, ncs: &Id) -> Result<MachInfo, NoMemory>
    ensures { IfOk result (λ m. IsInfo Ncs ncs.now None None m) }
{
    info(alloc, DeviceType::Ncs, ncs.try_clone(), Ok(None), Ok(None))
}

/// What the gateway of these settings says of itself: its mosID, manufacturer and model where they are set, the revision of
/// MOS, and the profiles of a device. The only error is that memory runs out.
pub fn gate_info(alloc: Global, settings: &GateSettings) -> Result<MachInfo, NoMemory>
    ensures { IfOk result (λ m. IsInfo Mos settings.now.mos_id settings.now.manufacturer settings.now.model m) }
{
    info(
        alloc,
        DeviceType::Mos,
        settings.mos_id.try_clone(),
        copy_of(&settings.manufacturer),
        copy_of(&settings.model),
    )
}
