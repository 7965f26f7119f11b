//! Where a stream is rejected, and as what: stated of its code units, and proved of the machine that reads them.
#![tactic(auto)]

pub mod laws;
