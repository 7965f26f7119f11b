//! Where the reading of characters is.
use crate::fault::TextFault;

/// Where the reading of characters is, in whole code units and what follows them.
#[derive(Clone, Copy, Debug, PartialEq, Eq)]
pub struct Reading {
    /// How many whole units were read.
    pub place: u64,
    /// A first byte whose second one is to come.
    pub odd: Option<u8>,
    /// The first unit of a pair whose second one is to come.
    pub high: Option<u16>,
    /// The first fault. Behind it units are counted alone.
    pub fault: Option<TextFault>,
}
