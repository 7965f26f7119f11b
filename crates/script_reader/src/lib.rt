//! Reading whole scripts.
//!
//! `read_script` reads a script from a source to its end: what devices its world has, and its events; or the number of the
//! first line that is none. What a script is says `world_scripts`.
#![tactic(auto)]

mod fault;
mod lines;
mod read;
mod reader;
mod script;

pub use fault::ScriptFault;
pub use read::read_script;
pub use script::{Script, close_event, close_script};
