//! The parts of a record's value.
#![tactic(auto)]

mod cursor;
mod halves;
mod laws;
mod numbers;
mod record;
mod slot;
mod take;
mod texts;

pub use cursor::Cursor;
pub use halves::halves_of;
pub use laws::{whole_record, written_tags};
pub use record::record_slots;
pub use slot::{LeafText, Nested, Slot};
pub use take::take_leaf;
