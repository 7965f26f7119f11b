//! Messages about running orders as elements.
ghost use Rattle.std.specs.Prelude.{◌≡◌, [], ◌∷◌, ◌++◌, OnErr, OnOk, IfOk, codes, if◌then◌else◌};
ghost use Rattle.mos_fields.specs.Characters.{units_of};
ghost use Rattle.mos_fields.specs.Values.{air_text, level_text, operation_text};
ghost use Rattle.mos_fields.specs.declared.field.Field.TheVariants as fields;
ghost use Rattle.mos_order_msgs.specs.Orders.{is_order, order_events};
ghost use Rattle.mos_values.specs.MessageViews.{action_events, message_events, operation_of_action};
ghost use Rattle.mos_values.specs.Parts.{attribute, element, element_with, must};
ghost use Rattle.mos_values.specs.Views.{body_events, element_stat_events, headers_events, patch_events, ro_ack_events, story_send_events};
ghost use Rattle.mos_writer.specs.Encoded.{encoded};

use crate::action::{operation_of, write_action};
use crate::records::{write_ack, write_body, write_headers};
use mos_fields::{Air, Field, Id, NoMemory};
use mos_values::{
    Action, ElementStat, HeaderPatch, Headers, Message, OrderBody, RoAck, StorySend,
    element_stat_pieces, patch_pieces, story_send_pieces,
};
use mos_writer::{
    level_word, operation_word, push_end, push_start, push_start_with, write_air, write_id,
    write_pieces,
};

fn write_order_body(out: &mut Vec<u8>, name: &str, b: &OrderBody) -> Result<(), NoMemory>
    requires { units_of name.now ≡ name.now }
    ensures { OnOk result (out.new.items ≡ out.old.items ++ encoded (element name.now (body_events b.now))) }
{
    push_start(out, name)?;
    write_body(out, b)?;
    push_end(out, name)?;
    Ok(())
}

fn write_metadata(out: &mut Vec<u8>, patch: &HeaderPatch) -> Result<(), NoMemory>
    ensures { OnOk result (out.new.items ≡ out.old.items ++ encoded (element (codes "roMetadataReplace") (patch_events patch.now))) }
{
    push_start(out, "roMetadataReplace")?;
    write_pieces(out, &patch_pieces(patch))?;
    push_end(out, "roMetadataReplace")?;
    Ok(())
}

fn write_order_id(out: &mut Vec<u8>, name: &str, ro: &Id) -> Result<(), NoMemory>
    requires { units_of name.now ≡ name.now }
    ensures { OnOk result (out.new.items ≡ out.old.items ++ encoded (element name.now (must fields.RoID ro.now))) }
{
    push_start(out, name)?;
    write_id(out, Field::RoID, ro)?;
    push_end(out, name)?;
    Ok(())
}

fn write_request_all(out: &mut Vec<u8>) -> Result<(), NoMemory>
    ensures { OnOk result (out.new.items ≡ out.old.items ++ encoded (element (codes "roReqAll") [])) }
{
    push_start(out, "roReqAll")?;
    push_end(out, "roReqAll")?;
    Ok(())
}

fn write_list_all(out: &mut Vec<u8>, headers: &Headers) -> Result<(), NoMemory>
    ensures { OnOk result (out.new.items ≡ out.old.items ++ encoded (element (codes "roListAll") (headers_events headers.now))) }
{
    push_start(out, "roListAll")?;
    write_headers(out, headers.as_slice())?;
    push_end(out, "roListAll")?;
    Ok(())
}

fn write_stat(out: &mut Vec<u8>, stat: &ElementStat) -> Result<(), NoMemory>
    ensures { OnOk result (out.new.items ≡ out.old.items ++ encoded (element_with (codes "roElementStat") (attribute fields.ElementKind (level_text stat.now.level) ∷ []) (element_stat_events stat.now))) }
{
    push_start_with(
        out,
        "roElementStat",
        Field::ElementKind.name(),
        level_word(stat.level),
    )?;
    write_pieces(out, &element_stat_pieces(stat))?;
    push_end(out, "roElementStat")?;
    Ok(())
}

fn write_action_inside(out: &mut Vec<u8>, ro: &Id, action: &Action) -> Result<(), NoMemory>
    ensures { OnOk result (out.new.items ≡ out.old.items ++ encoded (must fields.RoID ro.now ++ action_events action.now)) }
{
    write_id(out, Field::RoID, ro)?;
    write_action(out, action)?;
    Ok(())
}

fn write_element_action(out: &mut Vec<u8>, ro: &Id, action: &Action) -> Result<(), NoMemory>
    ensures { OnOk result (out.new.items ≡ out.old.items ++ encoded (element_with (codes "roElementAction") (attribute fields.OperationKind (operation_text (operation_of_action action.now)) ∷ []) (must fields.RoID ro.now ++ action_events action.now))) }
{
    push_start_with(
        out,
        "roElementAction",
        Field::OperationKind.name(),
        operation_word(operation_of(action)),
    )?;
    write_action_inside(out, ro, action)?;
    push_end(out, "roElementAction")?;
    Ok(())
}

fn write_ready_inside(out: &mut Vec<u8>, ro: &Id, air: Air) -> Result<(), NoMemory>
    ensures { OnOk result (out.new.items ≡ out.old.items ++ encoded (must fields.RoID ro.now ++ must fields.RoAir (air_text air))) }
{
    write_id(out, Field::RoID, ro)?;
    write_air(out, Field::RoAir, air)?;
    Ok(())
}

fn write_ready(out: &mut Vec<u8>, ro: &Id, air: Air) -> Result<(), NoMemory>
    ensures { OnOk result (out.new.items ≡ out.old.items ++ encoded (element (codes "roReadyToAir") (must fields.RoID ro.now ++ must fields.RoAir (air_text air)))) }
{
    push_start(out, "roReadyToAir")?;
    write_ready_inside(out, ro, air)?;
    push_end(out, "roReadyToAir")?;
    Ok(())
}

fn write_ro_ack(out: &mut Vec<u8>, ack: &RoAck) -> Result<(), NoMemory>
    ensures { OnOk result (out.new.items ≡ out.old.items ++ encoded (element (codes "roAck") (ro_ack_events ack.now))) }
{
    push_start(out, "roAck")?;
    write_ack(out, ack)?;
    push_end(out, "roAck")?;
    Ok(())
}

fn write_story_send(out: &mut Vec<u8>, story: &StorySend) -> Result<(), NoMemory>
    ensures { OnOk result (out.new.items ≡ out.old.items ++ encoded (element (codes "roStorySend") (story_send_events story.now))) }
{
    push_start(out, "roStorySend")?;
    write_pieces(out, &story_send_pieces(story))?;
    push_end(out, "roStorySend")?;
    Ok(())
}

/// Appends the canonical element of a message about running orders. The answer is true exactly where the message is
/// one of these, and with false nothing is appended. The only error is that memory runs out; then a part of the element
/// may stand at the end, for a caller that lets `out` go. `write_order` leaves none.
#[tactic(auto, using(mos_writer::proofs::EncodedLemmas::appends_nothing), unfolding(mos_values::specs::MessageViews::message_events))]
pub fn append_order(m: &Message, out: &mut Vec<u8>) -> Result<bool, NoMemory>
    ensures answer { IfOk result (λ b. b ≡ is_order m.now) }
    ensures written { OnOk result (out.new.items ≡ out.old.items ++ encoded (order_events m.now)) }
{
    match m {
        Message::RoCreate(b) => write_order_body(out, "roCreate", b.as_ref())?,
        Message::RoReplace(b) => write_order_body(out, "roReplace", b.as_ref())?,
        Message::RoList(b) => write_order_body(out, "roList", b.as_ref())?,
        Message::RoMetadataReplace(patch) => write_metadata(out, patch.as_ref())?,
        Message::RoDelete(ro) => write_order_id(out, "roDelete", ro)?,
        Message::RoReq(ro) => write_order_id(out, "roReq", ro)?,
        Message::RoReqAll => write_request_all(out)?,
        Message::RoListAll(headers) => write_list_all(out, headers)?,
        Message::RoElementStat(stat) => write_stat(out, stat.as_ref())?,
        Message::RoElementAction { ro, action } => write_element_action(out, ro, action)?,
        Message::RoReadyToAir { ro, air } => write_ready(out, ro, *air)?,
        Message::RoAck(ack) => write_ro_ack(out, ack)?,
        Message::RoStorySend(story) => write_story_send(out, story.as_ref())?,
        _ => return Ok(false),
    }
    Ok(true)
}

/// The same, but without memory nothing is appended. The element is copied once more for it.
pub fn write_order(m: &Message, out: &mut Vec<u8>) -> Result<bool, NoMemory>
    ensures answer { IfOk result (λ b. b ≡ is_order m.now) }
    ensures written { OnOk result (out.new.items ≡ out.old.items ++ encoded (order_events m.now)) }
    ensures unchanged { OnErr result (out.new.items ≡ out.old.items) }
{
    let mut element = Vec::new(*out.allocator());
    let answer = append_order(m, &mut element)?;
    out.extend_from_slice(element.as_slice())?;
    Ok(answer)
}
