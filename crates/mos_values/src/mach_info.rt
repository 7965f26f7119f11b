//! What a machine says of itself.
ghost use Rattle.std.specs.Prelude.{◌≡◌, IfOk};

use crate::Unreads;
use crate::copies::triple;
use crate::profile::SupportedProfiles;
use crate::try_clone::copied;
use mos_fields::{MosTime, NoMemory, Text, pair_ok};

/// What a machine says of itself, as listMachInfo carries it.
#[derive(Drop)]
pub struct MachInfo {
    /// manufacturer
    pub manufacturer: Option<Text>,
    /// model
    pub model: Option<Text>,
    /// hwRev
    pub hw_rev: Option<Text>,
    /// swRev
    pub sw_rev: Option<Text>,
    /// DOM, the date of manufacture, which is kept as text
    pub dom: Option<Text>,
    /// SN, the serial number
    pub serial_number: Option<Text>,
    /// ID
    pub id: Option<Text>,
    /// time, the machine's clock
    pub time: Option<MosTime>,
    /// opTime, since when the machine runs, which is kept as text
    pub op_time: Option<Text>,
    /// mosRev
    pub mos_rev: Option<Text>,
    /// supportedProfiles
    pub supported_profiles: Option<SupportedProfiles>,
    /// defaultActiveX, each element as it was written
    pub default_active_x: Unreads,
    /// mosExternalMetadata, each element as it was written
    pub metadata: Unreads,
    /// the elements of other names, in order, each as it was written
    pub others: Unreads,
}

impl MachInfo {
    /// The same value again, in memory of its own. The only error is that memory runs out.
    pub fn try_clone(&self) -> Result<Self, NoMemory>
        ensures { IfOk result (λ t. t ≡ self.now) }
    {
        let manufacturer = copied(&self.manufacturer)?;
        let (
            ((model, hw_rev, sw_rev), (dom, serial_number, id)),
            ((op_time, mos_rev, supported_profiles), (default_active_x, metadata, others)),
        ) = pair_ok(
            pair_ok(
                triple(&self.model, &self.hw_rev, &self.sw_rev),
                triple(&self.dom, &self.serial_number, &self.id),
            ),
            pair_ok(
                triple(&self.op_time, &self.mos_rev, &self.supported_profiles),
                triple(&self.default_active_x, &self.metadata, &self.others),
            ),
        )?;
        Ok(MachInfo {
            manufacturer,
            model,
            hw_rev,
            sw_rev,
            dom,
            serial_number,
            id,
            op_time,
            mos_rev,
            supported_profiles,
            default_active_x,
            metadata,
            others,
            time: self.time,
        })
    }
}
