//! The profiles that a machine supports.
ghost use Rattle.std.specs.Prelude.{◌≡◌, ◌≤◌, IfOk};

use crate::Profiles;
use mos_fields::NoMemory;

/// What kind of machine says which profiles it supports.
#[derive(Clone, Copy, Debug, PartialEq, Eq)]
pub enum DeviceType {
    /// a newsroom computer system, written `NCS`
    Ncs,
    /// a media object server, written `MOS`
    Mos,
}

/// Whether a profile of MOS is supported.
#[derive(Clone, Copy, Debug, PartialEq, Eq)]
pub struct Profile {
    /// the profile's number, 0 to 9
    pub number: u8,
    /// `YES` or `NO`
    pub supported: bool,
    pub ghost digit: { number ≤ 9 },
}

/// supportedProfiles: the profiles that a machine names.
#[derive(Drop)]
pub struct SupportedProfiles {
    /// deviceType
    pub device_type: DeviceType,
    /// mosProfile, in order
    pub profiles: Profiles,
}

impl SupportedProfiles {
    /// The same value again, in memory of its own. The only error is that memory runs out.
    pub fn try_clone(&self) -> Result<Self, NoMemory>
        ensures { IfOk result (λ t. t ≡ self.now) }
    {
        Ok(SupportedProfiles {
            device_type: self.device_type,
            profiles: self.profiles.try_clone()?,
        })
    }
}
