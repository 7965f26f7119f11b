//! Items, stories and whole running orders from their events.
#![tactic(auto)]

mod bodies;
mod headers;
mod items;
mod stories;

pub use bodies::body_of;
pub use headers::headers_of;
pub use items::{item_of, items_of};
pub use stories::{stories_of, story_of};
