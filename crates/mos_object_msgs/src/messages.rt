//! Messages about machines and media objects as elements.
ghost use Rattle.std.specs.Prelude.{◌≡◌, [], ◌++◌, OnErr, OnOk, IfOk, codes};
ghost use Rattle.std.specs.Fmt.{decimal};
ghost use Rattle.mos_fields.specs.Characters.{units_of};
ghost use Rattle.mos_fields.specs.Fields.{name_of};
ghost use Rattle.mos_fields.specs.Values.{samples_text, time_text};
ghost use Rattle.mos_fields.specs.declared.field.Field.TheVariants as fields;
ghost use Rattle.mos_object_msgs.specs.Objects.{is_object, object_events};
ghost use Rattle.mos_values.specs.MessageViews.{message_events};
ghost use Rattle.mos_values.specs.Parts.{element, must};
ghost use Rattle.mos_values.specs.Views.{mach_info_events, mos_ack_events, mos_obj_events, objects_events};
ghost use Rattle.mos_writer.specs.Encoded.{encoded};

use crate::machines::write_mach_info;
use mos_fields::{Field, Id, MosTime, NoMemory, Samples};
use mos_values::{MachInfo, Message, MosAck, MosObj, MosObjs, mos_ack_pieces, mos_obj_pieces};
use mos_writer::{push_end, push_start, write_id, write_number, write_pieces, write_time};

fn write_heartbeat(out: &mut Vec<u8>, time: &MosTime) -> Result<(), NoMemory>
    ensures { OnOk result (out.new.items ≡ out.old.items ++ encoded (element (codes "heartbeat") (must fields.TimeTag (time_text time.now)))) }
{
    push_start(out, "heartbeat")?;
    write_time(out, Field::TimeTag, time)?;
    push_end(out, "heartbeat")?;
    Ok(())
}

fn write_request(out: &mut Vec<u8>) -> Result<(), NoMemory>
    ensures { OnOk result (out.new.items ≡ out.old.items ++ encoded (element (codes "reqMachInfo") [])) }
{
    push_start(out, "reqMachInfo")?;
    push_end(out, "reqMachInfo")?;
    Ok(())
}

fn write_info(out: &mut Vec<u8>, info: &MachInfo) -> Result<(), NoMemory>
    ensures { OnOk result (out.new.items ≡ out.old.items ++ encoded (element (codes "listMachInfo") (mach_info_events info.now))) }
{
    push_start(out, "listMachInfo")?;
    write_mach_info(out, info)?;
    push_end(out, "listMachInfo")?;
    Ok(())
}

fn write_mos_ack(out: &mut Vec<u8>, ack: &MosAck) -> Result<(), NoMemory>
    ensures { OnOk result (out.new.items ≡ out.old.items ++ encoded (element (codes "mosAck") (mos_ack_events ack.now))) }
{
    push_start(out, "mosAck")?;
    write_pieces(out, &mos_ack_pieces(ack))?;
    push_end(out, "mosAck")?;
    Ok(())
}

fn write_mos_obj(out: &mut Vec<u8>, object: &MosObj) -> Result<(), NoMemory>
    ensures { OnOk result (out.new.items ≡ out.old.items ++ encoded (element (codes "mosObj") (mos_obj_events object.now))) }
{
    push_start(out, "mosObj")?;
    write_pieces(out, &mos_obj_pieces(object))?;
    push_end(out, "mosObj")?;
    Ok(())
}

fn write_request_object(out: &mut Vec<u8>, id: &Id) -> Result<(), NoMemory>
    ensures { OnOk result (out.new.items ≡ out.old.items ++ encoded (element (codes "mosReqObj") (must fields.ObjID id.now))) }
{
    push_start(out, "mosReqObj")?;
    write_id(out, Field::ObjID, id)?;
    push_end(out, "mosReqObj")?;
    Ok(())
}

fn write_request_all(out: &mut Vec<u8>, pause: Samples) -> Result<(), NoMemory>
    ensures { OnOk result (out.new.items ≡ out.old.items ++ encoded (element (codes "mosReqAll") (must fields.Pause (samples_text pause)))) }
{
    push_start(out, "mosReqAll")?;
    write_number(out, Field::Pause, pause.count())?;
    push_end(out, "mosReqAll")?;
    Ok(())
}

fn write_objects(out: &mut Vec<u8>, objects: &[MosObj]) -> Result<(), NoMemory>
    ensures { OnOk result (out.new.items ≡ out.old.items ++ encoded (objects_events objects.now)) }
{
    for object in objects {
        write_mos_obj(out, object)?;
    }
    Ok(())
}

fn write_list_all(out: &mut Vec<u8>, objects: &MosObjs) -> Result<(), NoMemory>
    ensures { OnOk result (out.new.items ≡ out.old.items ++ encoded (element (codes "mosListAll") (objects_events objects.now))) }
{
    push_start(out, "mosListAll")?;
    write_objects(out, objects.as_slice())?;
    push_end(out, "mosListAll")?;
    Ok(())
}

/// Appends the canonical element of a message about machines or media objects. The answer is true exactly where the
/// message is one of these, and with false nothing is appended. The only error is that memory runs out; then a part of
/// the element may stand at the end, for a caller that lets `out` go. `write_object` leaves none.
#[tactic(auto, using(mos_writer::proofs::EncodedLemmas::appends_nothing), unfolding(mos_values::specs::MessageViews::message_events))]
pub fn append_object(m: &Message, out: &mut Vec<u8>) -> Result<bool, NoMemory>
    ensures answer { IfOk result (λ b. b ≡ is_object m.now) }
    ensures written { OnOk result (out.new.items ≡ out.old.items ++ encoded (object_events m.now)) }
{
    match m {
        Message::Heartbeat(time) => write_heartbeat(out, time)?,
        Message::ReqMachInfo => write_request(out)?,
        Message::ListMachInfo(info) => write_info(out, info.as_ref())?,
        Message::MosAck(ack) => write_mos_ack(out, ack)?,
        Message::MosObj(object) => write_mos_obj(out, object.as_ref())?,
        Message::MosReqObj(id) => write_request_object(out, id)?,
        Message::MosReqAll(pause) => write_request_all(out, *pause)?,
        Message::MosListAll(objects) => write_list_all(out, objects)?,
        _ => return Ok(false),
    }
    Ok(true)
}

/// The same, but without memory nothing is appended. The element is copied once more for it.
pub fn write_object(m: &Message, out: &mut Vec<u8>) -> Result<bool, NoMemory>
    ensures answer { IfOk result (λ b. b ≡ is_object m.now) }
    ensures written { OnOk result (out.new.items ≡ out.old.items ++ encoded (object_events m.now)) }
    ensures unchanged { OnErr result (out.new.items ≡ out.old.items) }
{
    let mut element = Vec::new(*out.allocator());
    let answer = append_object(m, &mut element)?;
    out.extend_from_slice(element.as_slice())?;
    Ok(answer)
}
