//! The same of objects, machines and whole messages.
ghost use Rattle.mos_fields.specs.declared.form.Form.TheVariants as forms;
ghost use Rattle.value_facts.specs.FitValues.{AreFitObjects, IsFitAction, IsFitMachine, IsFitMessage, IsFitMosAck, IsFitObject, IsText};

use crate::orders::{
    action_fits, body_fits, patch_fits, patches_fit, ro_ack_fits, send_fits, stat_fits,
};
use crate::texts::{
    id_fits, opt_id_fits, optional_rev_fits, optional_samples_fit, optional_slug_fits,
    optional_text_fits, optional_unread_fits, samples_fit, unread_fits, unreads_fit,
};
use mos_fields::Id;
use mos_values::{Action, MachInfo, Message, MosAck, MosObj};

fn object_fits(object: &MosObj)
    ensures { IsFitObject object.now }
{
    id_fits(&object.id);
    optional_slug_fits(&object.slug);
    optional_unread_fits(&object.mos_abstract);
    optional_text_fits(&object.group);
    optional_samples_fit(&object.time_base);
    optional_rev_fits(&object.rev);
    optional_samples_fit(&object.dur);
    optional_text_fits(&object.status);
    optional_unread_fits(&object.obj_paths);
    optional_text_fits(&object.created_by);
    optional_text_fits(&object.created);
    optional_text_fits(&object.changed_by);
    optional_text_fits(&object.changed);
    optional_unread_fits(&object.description);
    unreads_fit(object.metadata.as_slice());
    unreads_fit(object.others.as_slice());
}

fn objects_fit(objects: &[MosObj])
    ensures { AreFitObjects objects.now }
{
    for object in objects {
        object_fits(object);
    }
}

fn mos_ack_fits(ack: &MosAck)
    ensures { IsFitMosAck ack.now }
{
    opt_id_fits(&ack.obj);
    optional_rev_fits(&ack.rev);
    optional_text_fits(&ack.description);
}

fn machine_fits(info: &MachInfo)
    ensures { IsFitMachine info.now }
{
    optional_text_fits(&info.manufacturer);
    optional_text_fits(&info.model);
    optional_text_fits(&info.hw_rev);
    optional_text_fits(&info.sw_rev);
    optional_text_fits(&info.dom);
    optional_text_fits(&info.serial_number);
    optional_text_fits(&info.id);
    optional_text_fits(&info.op_time);
    optional_text_fits(&info.mos_rev);
    unreads_fit(info.default_active_x.as_slice());
    unreads_fit(info.metadata.as_slice());
    unreads_fit(info.others.as_slice());
}

fn order_and_action_fit(ro: &Id, action: &Action)
    ensures order { IsText forms.Id ro.now }
    ensures action { IsFitAction action.now }
{
    id_fits(ro);
    action_fits(action);
}

pub fn message_fits(message: &Message)
    ensures { IsFitMessage message.now }
{
    match message {
        Message::ListMachInfo(info) => machine_fits(info.as_ref()),
        Message::MosAck(ack) => mos_ack_fits(ack),
        Message::MosObj(object) => object_fits(object.as_ref()),
        Message::MosReqObj(id) => id_fits(id),
        Message::MosReqAll(pause) => samples_fit(*pause),
        Message::MosListAll(objects) => objects_fit(objects.as_slice()),
        Message::RoCreate(body) => body_fits(body.as_ref()),
        Message::RoReplace(body) => body_fits(body.as_ref()),
        Message::RoList(body) => body_fits(body.as_ref()),
        Message::RoMetadataReplace(patch) => patch_fits(patch.as_ref()),
        Message::RoDelete(ro) => id_fits(ro),
        Message::RoReq(ro) => id_fits(ro),
        Message::RoListAll(headers) => patches_fit(headers.as_slice()),
        Message::RoElementStat(stat) => stat_fits(stat.as_ref()),
        Message::RoElementAction { ro, action } => order_and_action_fit(ro, action),
        Message::RoReadyToAir { ro, .. } => id_fits(ro),
        Message::RoAck(ack) => ro_ack_fits(ack),
        Message::RoStorySend(send) => send_fits(send.as_ref()),
        Message::Other { raw, .. } => unread_fits(raw),
        _ => {}
    }
}
