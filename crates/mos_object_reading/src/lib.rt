//! Messages of Profiles 0 and 1 from their events.
#![tactic(auto)]

mod acks;
mod machines;
mod object_lists;
mod objects;
mod profiles;
mod requests;
mod words;

pub use acks::mos_ack_of;
pub use machines::mach_info_of;
pub use object_lists::objects_of;
pub use objects::object_of;
pub use requests::{object_id_of, pause_of, time_of};
