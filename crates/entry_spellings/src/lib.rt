//! Whether bytes are an entry as the journal spells it, and of which entry.
#![tactic(auto)]

mod laws;
mod reading;
mod writing;

pub use laws::bytes_spell_one_entry;
pub use reading::read_entry;
pub use writing::spelled_bytes;
