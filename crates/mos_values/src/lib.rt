//! Messages of MOS Protocol 2.8.5, in this project's profile, as values.
//!
//! A running order is an `OrderBody`: a `Header` and stories with distinct storyIDs, each of items with distinct
//! itemIDs. A `Message` has a variant for each message of the profile. Elements that the profile does not look into
//! are kept as they were written, in fields of type `Unread` and `Unreads`.
#![tactic(auto)]

mod ack_group;
mod action;
mod boxed;
mod copies;
mod element_stat;
mod header;
mod ids;
mod item;
mod mach_info;
mod message;
mod mos_ack;
mod mos_obj;
mod names;
mod object_pieces;
mod order_body;
mod order_pieces;
mod piece;
mod profile;
mod push_fault;
mod ro_ack;
mod sequence;
mod sizes;
mod story;
mod story_send;
mod try_clone;
mod units;

pub use ack_group::AckGroup;
pub use action::Action;
pub use boxed::Boxed;
pub use element_stat::ElementStat;
pub use header::{Header, HeaderPatch};
pub use ids::{are_equal, is_item_among, is_story_among};
pub use item::Item;
pub use mach_info::MachInfo;
pub use message::{Envelope, Message};
pub use mos_ack::{AckStatus, MosAck};
use mos_fields::Unread;
pub use mos_obj::MosObj;
pub use names::{first_revision, message_obj, message_rev, message_ro, named, nameless};
pub use object_pieces::{mach_head_pieces, mach_rest_pieces, mos_ack_pieces, mos_obj_pieces};
pub use order_body::OrderBody;
pub use order_pieces::{
    element_stat_pieces, group_pieces, header_pieces, item_pieces, patch_pieces, story_head_pieces,
    story_send_pieces,
};
pub use piece::Piece;
pub use profile::{DeviceType, Profile, SupportedProfiles};
pub use push_fault::PushFault;
pub use ro_ack::RoAck;
pub use sequence::Sequence;
pub use sizes::{
    header_units, item_units, items_units, list_all_units, list_units, object_list_units,
    object_units, send_units, stories_units, story_units,
};
pub use story::Story;
pub use story_send::StorySend;
pub use try_clone::TryClone;

/// Raw elements, in order.
pub type Unreads = Sequence<Unread>;
/// Items, in order.
pub type Items = Sequence<Item>;
/// Stories, in order.
pub type Stories = Sequence<Story>;
/// Media objects, in order.
pub type MosObjs = Sequence<MosObj>;
/// Headers, one for each running order that is listed.
pub type Headers = Sequence<HeaderPatch>;
/// The statuses of a roAck, in order.
pub type AckGroups = Sequence<AckGroup>;
/// Profiles, in order.
pub type Profiles = Sequence<Profile>;
