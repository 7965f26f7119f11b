//! Messages from their elements.
ghost use Rattle.std.specs.Prelude.{◌≡◌, IfOk, MatchOption, false, true};
ghost use Rattle.mos_fields.specs.declared.field.Field.TheVariants as fields;
ghost use Rattle.mos_events.specs.EventView.{element_text, message_text};
ghost use Rattle.mos_values.specs.MessageViews.{message_events};
ghost use Rattle.mos_cursor.specs.Accepted.{MessageFits, OneMessage};
ghost use Rattle.mos_cursor.specs.Parts.{part_events, record_events};
ghost use Rattle.mos_cursor.specs.Slots.{part_of, record_of};
ghost use Rattle.mos_message_reading.specs.Values.{IsNamed, is_order_name};

use crate::answers::{order_ack_of, order_action_of, readiness_of, status_of, story_sent_of};
use crate::attributes::{level_of, operation_of};
use crate::machines::{
    all_objects_of, heartbeat_of, list_request_of, machine_of, object_ack_of, object_request_of,
    one_object_of,
};
use crate::names::message_name;
use crate::orders::{
    all_orders_of, creation_of, deletion_of, listing_of, new_header_of, order_request_of,
    replacement_of,
};
use crate::others::other_of;
use crate::requests::{all_orders_request_of, machine_request_of};
use mos_cursor::{Nested, Slot};
use mos_events::{ElementName, MessageName};
use mos_fields::NoMemory;
use mos_values::Message;
use std::alloc::Global;

/// Whether the message is about running orders.
fn is_order(name: MessageName) -> bool
    ensures { result ≡ is_order_name name }
{
    match name {
        MessageName::Heartbeat
        | MessageName::ReqMachInfo
        | MessageName::ListMachInfo
        | MessageName::MosAck
        | MessageName::MosObj
        | MessageName::MosReqObj
        | MessageName::MosReqAll
        | MessageName::MosListAll => false,
        _ => true,
    }
}

/// The message about running orders of this name.
fn order_message(alloc: Global, name: MessageName, nested: Nested) -> Result<Message, NoMemory>
    requires order { is_order_name name ≡ true }
    requires fits { MessageFits (message_text name) (record_of nested) }
    ensures { IfOk result (λ m. message_events m ≡ record_events (message_text name) (record_of nested)) }
{
    let Nested { attribute, inner } = nested;
    match name {
        MessageName::RoCreate => creation_of(alloc, inner),
        MessageName::RoReplace => replacement_of(alloc, inner),
        MessageName::RoList => listing_of(alloc, inner),
        MessageName::RoMetadataReplace => new_header_of(alloc, inner),
        MessageName::RoDelete => deletion_of(alloc, inner),
        MessageName::RoReq => order_request_of(alloc, inner),
        MessageName::RoReqAll => Ok(all_orders_request_of(inner)),
        MessageName::RoListAll => all_orders_of(alloc, inner),
        MessageName::RoElementStat => status_of(alloc, level_of(attribute), inner),
        MessageName::RoElementAction => order_action_of(alloc, operation_of(attribute), inner),
        MessageName::RoReadyToAir => readiness_of(alloc, inner),
        MessageName::RoAck => order_ack_of(alloc, inner),
        MessageName::RoStorySend => story_sent_of(alloc, inner),
        _ => unreachable!(),
    }
}

/// The message about machines or objects of this name.
fn object_message(alloc: Global, name: MessageName, nested: Nested) -> Result<Message, NoMemory>
    requires object { is_order_name name ≡ false }
    requires fits { MessageFits (message_text name) (record_of nested) }
    ensures { IfOk result (λ m. message_events m ≡ record_events (message_text name) (record_of nested)) }
{
    let inner = nested.inner;
    match name {
        MessageName::Heartbeat => heartbeat_of(alloc, inner),
        MessageName::ReqMachInfo => Ok(machine_request_of(inner)),
        MessageName::ListMachInfo => machine_of(alloc, inner),
        MessageName::MosAck => object_ack_of(alloc, inner),
        MessageName::MosObj => one_object_of(alloc, inner),
        MessageName::MosReqObj => object_request_of(alloc, inner),
        MessageName::MosReqAll => list_request_of(alloc, inner),
        MessageName::MosListAll => all_objects_of(alloc, inner),
        _ => unreachable!(),
    }
}

/// The message about running orders, of Profiles 2 and 4, whose element has this name and these events inside; `None`
/// exactly where the name is that of a message of Profiles 0 and 1. The only error is that memory runs out.
///
/// The events have to be those that the message's table accepts, as a reader hands them out.
pub fn read_order(
    alloc: Global,
    name: MessageName,
    nested: Nested,
) -> Result<Option<Message>, NoMemory>
    requires { MessageFits (message_text name) (record_of nested) }
    ensures { IfOk result (λ o. MatchOption o (is_order_name name ≡ false) (λ m. (is_order_name name ≡ true) × (message_events m ≡ record_events (message_text name) (record_of nested)))) }
{
    if is_order(name) {
        Ok(Some(order_message(alloc, name, nested)?))
    } else {
        Ok(None)
    }
}

/// The message about machines or objects, of Profiles 0 and 1, whose element has this name and these events inside; `None`
/// exactly where the name is that of a message of Profiles 2 and 4. The only error is that memory runs out.
///
/// The events have to be those that the message's table accepts, as a reader hands them out.
pub fn read_object(
    alloc: Global,
    name: MessageName,
    nested: Nested,
) -> Result<Option<Message>, NoMemory>
    requires { MessageFits (message_text name) (record_of nested) }
    ensures { IfOk result (λ o. MatchOption o (is_order_name name ≡ true) (λ m. (is_order_name name ≡ false) × (message_events m ≡ record_events (message_text name) (record_of nested)))) }
{
    if is_order(name) {
        Ok(None)
    } else {
        Ok(Some(object_message(alloc, name, nested)?))
    }
}

/// The message of this name. The only error is that memory runs out.
fn named_message(alloc: Global, name: MessageName, nested: Nested) -> Result<Message, NoMemory>
    requires { MessageFits (message_text name) (record_of nested) }
    ensures { IfOk result (λ m. message_events m ≡ record_events (message_text name) (record_of nested)) }
{
    if is_order(name) {
        order_message(alloc, name, nested)
    } else {
        object_message(alloc, name, nested)
    }
}

/// The message of an element of this name. The only error is that memory runs out.
fn known_message(alloc: Global, name: ElementName, nested: Nested) -> Result<Message, NoMemory>
    requires { MessageFits (element_text name) (record_of nested) }
    ensures events { IfOk result (λ m. message_events m ≡ record_events (element_text name) (record_of nested)) }
    ensures named { IfOk result (λ m. IsNamed m) }
{
    let name = message_name(name);
    named_message(alloc, name, nested)
}

/// The message of an envelope, from its part: an element of the tables, or a raw element of another name, which is kept.
/// The only error is that memory runs out.
#[tactic(auto, unfolding(mos_values::specs::Parts::must_raw))]
pub fn message_of(alloc: Global, slot: Slot) -> Result<Message, NoMemory>
    requires { OneMessage (part_of slot) }
    ensures events { IfOk result (λ m. message_events m ≡ part_events fields.Message (part_of slot)) }
    ensures named { IfOk result (λ m. IsNamed m) }
{
    match slot {
        Slot::Message(name, nested) => known_message(alloc, name, nested),
        Slot::Raw(text) => other_of(alloc, text),
        _ => unreachable!(),
    }
}
