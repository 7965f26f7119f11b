//! The settings of `ncs_server` and `device_gateway`, which stand in a TOML text.
//!
//! The keys are checked in a fixed order. The first one that is required and lacking, or whose value isn't allowed, is the
//! answer; keys of other names are read over. What each key has to be is this project's own. The address that both programs
//! listen at is read by a call of its own, and so is how many of the devices' tables can be read.
#![tactic(auto)]

pub mod devices;
mod document;
pub mod fault;
pub mod gate;
mod given;
pub mod key;
pub mod listen;
pub mod readable;
pub mod server;
mod values;

pub use devices::{DeviceSettings, Devices};
pub use document::read_document;
pub use fault::SettingsFault;
pub use gate::{GateSettings, read_gate_settings};
pub use key::Key;
pub use listen::read_listen;
pub use readable::{count_readable, device_values};
pub use server::{ServerSettings, read_server_settings};
pub use values::{required_id, value_at};
