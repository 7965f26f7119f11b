//! What is cut off a file, saved beside it first.
//!
//! No contract says what a file holds: what is written, and that it is on the disk before a call answers, is to be read here.
#![tactic(auto)]

mod folders;
mod saving;

pub use folders::sync_folder_of;
pub use saving::{SaveFault, save_end};
