//! One device as the server sees it: its two connections, what is in flight, and the view of each order.
//!
//! A `Peer` is seen as the tables of its state. A view keeps a place in the server's journal and no edits; each call is one
//! part of a step of the server, by its definition in `mos_machines`.
#![tactic(auto)]

mod after;
mod answers;
mod changes;
mod due;
mod hearing;
mod known;
mod peer;
mod ready;
mod sends;
mod statuses;
mod until;
mod upper;
mod view;
mod views;

pub use peer::Peer;
pub use upper::{ServerOut, Upper};
pub use view::View;
