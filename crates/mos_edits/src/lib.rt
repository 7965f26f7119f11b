//! Running orders and their edits as plain data: the definitions that the crates of orders, of the two machines and of
//! the world cite, and their laws.
//!
//! Each law stands as the contract of a function that does nothing. `Edit` is the type of edits in memory, and a few
//! functions turn messages into edits and back.
#![tactic(auto)]

mod carried;
mod edit;
mod edits;
mod journal;
mod lists;
mod scripts;

pub use carried::{edit_in, edit_message, edit_of_message, message_of_edit};
pub use edit::Edit;
pub use edits::{
    create_makes_an_order, other_edits_need_an_order, ready_changes_nothing,
    whole_order_edits_give_their_body,
};
pub use journal::{
    accepted_entries_apply, each_entry_applies_to_the_order_before_it,
    orders_have_the_roid_of_their_entries, refusals_have_their_cause,
};
pub use lists::{
    actions_keep_identifiers_distinct, edits_keep_identifiers_distinct, one_identifier_is_equal,
    orders_keep_identifiers_distinct, swap_twice_changes_nothing,
};
pub use scripts::{scripts_in_force_stand, scripts_join_their_stories, scripts_stand_on_stories};
