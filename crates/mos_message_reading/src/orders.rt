//! Messages of whole running orders, from the events inside their elements.
ghost use Rattle.std.specs.Prelude.{◌≡◌, List, IfOk, codes};
ghost use Rattle.mos_fields.specs.Characters.{Text};
ghost use Rattle.mos_tables.specs.declared.table.Table.TheVariants as tables;
ghost use Rattle.mos_values.specs.MessageViews.{message_events};
ghost use Rattle.mos_values.specs.Parts.{element};
ghost use Rattle.mos_cursor.specs.Accepted.{IsAccepted};

use mos_cursor::Cursor;
use mos_fields::NoMemory;
use mos_order_reading::{order_of, patch_of};
use mos_story_reading::{body_of, headers_of};
use mos_values::{Boxed, Message};
use std::alloc::Global;

/// The roCreate of these events. The only error is that memory runs out.
#[tactic(auto, unfolding(mos_values::specs::MessageViews::message_events))]
pub(crate) fn creation_of(alloc: Global, inner: Cursor) -> Result<Message, NoMemory>
    requires { (taken : List Text) × IsAccepted tables.Body taken inner }
    ensures { IfOk result (λ m. message_events m ≡ element (codes "roCreate") inner) }
{
    let body = body_of(alloc, inner)?;
    Ok(Message::RoCreate(Boxed::new(alloc, body)?))
}

/// The roReplace of these events. The only error is that memory runs out.
#[tactic(auto, unfolding(mos_values::specs::MessageViews::message_events))]
pub(crate) fn replacement_of(alloc: Global, inner: Cursor) -> Result<Message, NoMemory>
    requires { (taken : List Text) × IsAccepted tables.Body taken inner }
    ensures { IfOk result (λ m. message_events m ≡ element (codes "roReplace") inner) }
{
    let body = body_of(alloc, inner)?;
    Ok(Message::RoReplace(Boxed::new(alloc, body)?))
}

/// The roList of these events. The only error is that memory runs out.
#[tactic(auto, unfolding(mos_values::specs::MessageViews::message_events))]
pub(crate) fn listing_of(alloc: Global, inner: Cursor) -> Result<Message, NoMemory>
    requires { (taken : List Text) × IsAccepted tables.Body taken inner }
    ensures { IfOk result (λ m. message_events m ≡ element (codes "roList") inner) }
{
    let body = body_of(alloc, inner)?;
    Ok(Message::RoList(Boxed::new(alloc, body)?))
}

/// The roMetadataReplace of these events. The only error is that memory runs out.
#[tactic(auto, unfolding(mos_values::specs::MessageViews::message_events))]
pub(crate) fn new_header_of(alloc: Global, inner: Cursor) -> Result<Message, NoMemory>
    requires { (taken : List Text) × IsAccepted tables.HeaderPatch taken inner }
    ensures { IfOk result (λ m. message_events m ≡ element (codes "roMetadataReplace") inner) }
{
    let patch = patch_of(alloc, inner)?;
    Ok(Message::RoMetadataReplace(Boxed::new(alloc, patch)?))
}

/// The roDelete of these events. The only error is that memory runs out.
#[tactic(auto, unfolding(mos_values::specs::MessageViews::message_events))]
pub(crate) fn deletion_of(alloc: Global, inner: Cursor) -> Result<Message, NoMemory>
    requires { (taken : List Text) × IsAccepted tables.OneOrder taken inner }
    ensures { IfOk result (λ m. message_events m ≡ element (codes "roDelete") inner) }
{
    let ro = order_of(alloc, inner)?;
    Ok(Message::RoDelete(ro))
}

/// The roReq of these events. The only error is that memory runs out.
#[tactic(auto, unfolding(mos_values::specs::MessageViews::message_events))]
pub(crate) fn order_request_of(alloc: Global, inner: Cursor) -> Result<Message, NoMemory>
    requires { (taken : List Text) × IsAccepted tables.OneOrder taken inner }
    ensures { IfOk result (λ m. message_events m ≡ element (codes "roReq") inner) }
{
    let ro = order_of(alloc, inner)?;
    Ok(Message::RoReq(ro))
}

/// The roListAll of these events. The only error is that memory runs out.
#[tactic(auto, unfolding(mos_values::specs::MessageViews::message_events))]
pub(crate) fn all_orders_of(alloc: Global, inner: Cursor) -> Result<Message, NoMemory>
    requires { (taken : List Text) × IsAccepted tables.RoListAll taken inner }
    ensures { IfOk result (λ m. message_events m ≡ element (codes "roListAll") inner) }
{
    let headers = headers_of(alloc, inner)?;
    Ok(Message::RoListAll(headers))
}
