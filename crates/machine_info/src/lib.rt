//! What the two ends say of themselves, as listMachInfo carries it.
#![tactic(auto)]

mod info;

pub use info::{gate_info, server_info};
