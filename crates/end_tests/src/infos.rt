//! What the ends say of themselves.
use crate::texts::maybe_word;
use end_settings::read_gate_settings;
use machine_info::{gate_info, server_info};
use mos_fields::{Id, NoMemory, let_go};
use mos_values::{DeviceType, MachInfo, SupportedProfiles};
use std::alloc::Global;
use std::test::Fail;

// The type of the device, and each profile's number with `+` where it is supported and `-` where it isn't.
fn push_profiles(words: &mut String, supported: &SupportedProfiles) -> Result<(), NoMemory> {
    words.push_str(match supported.device_type {
        DeviceType::Ncs => " NCS ",
        DeviceType::Mos => " MOS ",
    })?;
    for place in 0..supported.profiles.len() {
        if let Some(profile) = supported.profiles.get(place) {
            words.push(char::from(b'0' + profile.number))?;
            words.push(if profile.supported { '+' } else { '-' })?;
        }
    }
    Ok(())
}

// Whether the fields that an end leaves out are lacking.
fn is_bare(info: &MachInfo) -> bool {
    info.hw_rev.is_none()
        && info.sw_rev.is_none()
        && info.dom.is_none()
        && info.serial_number.is_none()
        && info.time.is_none()
        && info.op_time.is_none()
        && info.default_active_x.is_empty()
        && info.metadata.is_empty()
        && info.others.is_empty()
}

// The ID, the manufacturer, the model, the revision of MOS and the profiles, and whether there is nothing else.
fn info_words(alloc: Global, info: &MachInfo) -> Result<(String, bool), NoMemory> {
    let id = maybe_word(alloc, &info.id)?;
    let manufacturer = maybe_word(alloc, &info.manufacturer)?;
    let model = maybe_word(alloc, &info.model)?;
    let revision = maybe_word(alloc, &info.mos_rev)?;
    let mut words = format!(in alloc; "{id} {manufacturer} {model} {revision}")?;
    if let Some(supported) = &info.supported_profiles {
        push_profiles(&mut words, supported)?;
    }
    Ok((words, is_bare(info)))
}

fn words_of(alloc: Global, info: Result<MachInfo, NoMemory>) -> Result<(String, bool), NoMemory> {
    let info = info?;
    let words = info_words(alloc, &info);
    let_go(info);
    words
}

fn server_words(alloc: Global) -> Result<(String, bool), Fail> {
    let id = Id::try_new(alloc, &['n', 'c', 's'])?;
    Ok(words_of(alloc, server_info(alloc, &id))?)
}

fn gate_words(alloc: Global, text: &str) -> Result<(String, bool), Fail> {
    let settings = read_gate_settings(alloc, text.as_bytes())?;
    Ok(words_of(alloc, gate_info(alloc, &settings))?)
}

#[test]
fn each_end_tells_its_name_and_the_four_profiles(rt: HostRuntime) -> Result<(), Fail> {
    let alloc = rt.alloc();
    let (words, is_bare) = server_words(alloc)?;
    assert_eq!(rt; words.as_str(), "=ncs - - =2.8.5 NCS 0+1+2+3-4+5-6-7-");
    assert!(rt; is_bare);
    let text = "mos_id = \"m1\"\nncs_id = \"ncs\"\nhost = \"h\"\nbudget = 1";
    let (words, is_bare) = gate_words(alloc, text)?;
    assert_eq!(rt; words.as_str(), "=m1 - - =2.8.5 MOS 0+1+2+3-4+5-6-7-");
    assert!(rt; is_bare);
    let text =
        "mos_id = \"m1\"\nncs_id = \"ncs\"\nhost = \"h\"\nmodel = \"\"\nmanufacturer = \"Acme\"";
    let (words, is_bare) = gate_words(alloc, text)?;
    assert_eq!(rt; words.as_str(), "=m1 =Acme = =2.8.5 MOS 0+1+2+3-4+5-6-7-");
    assert!(rt; is_bare);
    Ok(())
}
