//! The two machines as plain data and functions: the server's steps for a device, and the device's steps. The crates that
//! run them cite these definitions, and so does the world.
//!
//! Each law stands as the contract of a function that does nothing.
#![tactic(auto)]

mod device;
mod messages;
mod server;
mod tables;

pub use device::{
    actions_that_apply_are_answered_ok, stale_links_leave_the_device, unfit_actions_leave_the_order,
};
pub use messages::{machines_write_what_can_be_read, messages_are_read_as_written};
pub use server::{
    next_send_takes_the_first_due, no_entry_is_sent_twice, requests_are_answered_with_the_order,
    server_stays_within_its_journal, stale_links_leave_the_server,
};
pub use tables::written_rows_are_looked_up;

mod sizes;

pub use sizes::limits_count_canonical_encodings;
