//! The attributes that the tables name.
use mos_fields::{Level, Operation};

/// The attribute of a start tag that its table names, with its value.
#[derive(Clone, Copy, Debug, PartialEq, Eq)]
pub enum KnownAttribute {
    /// deviceType `NCS`
    Ncs,
    /// deviceType `MOS`
    Mos,
    /// number, of one digit: 0 to 9
    Number(u8),
    /// element, the level of a status
    Element(Level),
    /// operation
    Operation(Operation),
}
