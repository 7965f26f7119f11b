//! What machines say of themselves.
ghost use Rattle.std.specs.Prelude.{◌≡◌, ◌++◌, Some, OnOk};
ghost use Rattle.mos_values.specs.Views.{mach_info_events, profile_events, profiles_events, supported_events};
ghost use Rattle.mos_writer.specs.Encoded.{encoded};

use mos_fields::{Field, NoMemory};
use mos_values::{MachInfo, Profile, SupportedProfiles, mach_head_pieces, mach_rest_pieces};
use mos_writer::{
    answer_word, device_type_word, digit_word, push_end, push_start_with, push_word, write_pieces,
};

fn write_profile(out: &mut Vec<u8>, profile: &Profile) -> Result<(), NoMemory>
    ensures { OnOk result (out.new.items ≡ out.old.items ++ encoded (profile_events profile.now)) }
{
    push_start_with(
        out,
        Field::MosProfile.name(),
        Field::Number.name(),
        digit_word(profile.number),
    )?;
    push_word(out, answer_word(profile.supported))?;
    push_end(out, Field::MosProfile.name())?;
    Ok(())
}

fn write_profiles(out: &mut Vec<u8>, profiles: &[Profile]) -> Result<(), NoMemory>
    ensures { OnOk result (out.new.items ≡ out.old.items ++ encoded (profiles_events profiles.now)) }
{
    for profile in profiles {
        write_profile(out, profile)?;
    }
    Ok(())
}

fn write_named(out: &mut Vec<u8>, supported: &SupportedProfiles) -> Result<(), NoMemory>
    ensures { OnOk result (out.new.items ≡ out.old.items ++ encoded (supported_events (Some supported.now))) }
{
    push_start_with(
        out,
        Field::SupportedProfilesTag.name(),
        Field::DeviceType.name(),
        device_type_word(supported.device_type),
    )?;
    write_profiles(out, supported.profiles.as_slice())?;
    push_end(out, Field::SupportedProfilesTag.name())?;
    Ok(())
}

#[tactic(auto, using(mos_writer::proofs::EncodedLemmas::appends_nothing), unfolding(mos_values::specs::Views::supported_events))]
fn write_supported(out: &mut Vec<u8>, supported: &Option<SupportedProfiles>) -> Result<(), NoMemory>
    ensures { OnOk result (out.new.items ≡ out.old.items ++ encoded (supported_events supported.now)) }
{
    match supported {
        None => Ok(()),
        Some(supported) => write_named(out, supported),
    }
}

/// Appends what a machine says of itself.
pub fn write_mach_info(out: &mut Vec<u8>, info: &MachInfo) -> Result<(), NoMemory>
    ensures { OnOk result (out.new.items ≡ out.old.items ++ encoded (mach_info_events info.now)) }
{
    write_pieces(out, &mach_head_pieces(info))?;
    write_supported(out, &info.supported_profiles)?;
    write_pieces(out, &mach_rest_pieces(info))?;
    Ok(())
}
