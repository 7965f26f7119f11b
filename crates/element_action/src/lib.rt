//! Element actions and the other edits of a running order.
//!
//! `act` does a roElementAction on an order, `apply` any edit. Both answer the first fault, and leave the order as it
//! was where there is one. `applied` makes the edited order beside the former one.
#![tactic(auto)]

mod actions;
mod checks;
mod copying;
mod edits;
mod fault;
mod first_fault;
mod gathering;
mod item_edits;
mod item_forms;
mod item_moves;
mod laws;
mod level;
mod search;
mod seen;
mod sources;
mod story_edits;
mod story_forms;
mod story_moves;
mod target;

pub use actions::act;
pub use copying::applied;
pub use edits::apply;
pub use fault::ActFault;
pub use laws::{insert_undoes_delete, move_keeps_elements, swap_keeps_elements};
