//! Which messages have an encoding.
//!
//! Values may hold what no encoding of their message can: a raw element of another name than its field's, an action
//! with nothing to act on. Journals and encoders require that a message has none of this. `is_sound` and
//! `is_sound_edit` are the test, for values that come from elsewhere. They take no memory.
#![tactic(auto)]

mod actions;
mod edits;
mod fields;
mod messages;
mod names;
mod objects;
mod orders;

pub use edits::is_sound_edit;
pub use messages::is_sound;
pub use names::element_name;
