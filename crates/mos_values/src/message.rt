//! Messages, and the envelope that carries one.
ghost use Rattle.std.specs.Prelude.{◌≡◌, IfOk};

use crate::action::Action;
use crate::boxed::Boxed;
use crate::element_stat::ElementStat;
use crate::header::HeaderPatch;
use crate::mach_info::MachInfo;
use crate::mos_ack::MosAck;
use crate::mos_obj::MosObj;
use crate::order_body::OrderBody;
use crate::ro_ack::RoAck;
use crate::story_send::StorySend;
use crate::try_clone::copied;
use crate::{Headers, MosObjs};
use mos_fields::{Air, Id, MosTime, Name, NoMemory, OptId, Samples, Unread};

/// A message of MOS Protocol 2.8.5, Profiles 0, 1, 2 and 4, in this project's profile.
#[derive(Drop)]
pub enum Message {
    /// heartbeat
    Heartbeat(MosTime),
    /// reqMachInfo
    ReqMachInfo,
    /// listMachInfo
    ListMachInfo(Boxed<MachInfo>),
    /// mosAck
    MosAck(MosAck),
    /// mosObj
    MosObj(Boxed<MosObj>),
    /// mosReqObj, with an objID
    MosReqObj(Id),
    /// mosReqAll, with the pause between two objects
    MosReqAll(Samples),
    /// mosListAll
    MosListAll(MosObjs),
    /// roCreate
    RoCreate(Boxed<OrderBody>),
    /// roReplace
    RoReplace(Boxed<OrderBody>),
    /// roList
    RoList(Boxed<OrderBody>),
    /// roMetadataReplace
    RoMetadataReplace(Boxed<HeaderPatch>),
    /// roDelete, with a roID
    RoDelete(Id),
    /// roReq, with a roID
    RoReq(Id),
    /// roReqAll
    RoReqAll,
    /// roListAll
    RoListAll(Headers),
    /// roElementStat
    RoElementStat(Boxed<ElementStat>),
    /// roElementAction
    RoElementAction { ro: Id, action: Action },
    /// roReadyToAir
    RoReadyToAir { ro: Id, air: Air },
    /// roAck
    RoAck(RoAck),
    /// roStorySend
    RoStorySend(Boxed<StorySend>),
    /// a message of another name, kept as it was written
    Other { name: Name, raw: Unread },
}

impl Message {
    /// The same message again, in memory of its own. The only error is that memory runs out.
    pub fn try_clone(&self) -> Result<Self, NoMemory>
        ensures { IfOk result (λ t. t ≡ self.now) }
    {
        Ok(match self {
            Message::Heartbeat(time) => Message::Heartbeat(*time),
            Message::ReqMachInfo => Message::ReqMachInfo,
            Message::ListMachInfo(info) => Message::ListMachInfo(info.try_clone()?),
            Message::MosAck(ack) => Message::MosAck(ack.try_clone()?),
            Message::MosObj(obj) => Message::MosObj(obj.try_clone()?),
            Message::MosReqObj(obj) => Message::MosReqObj(obj.try_clone()?),
            Message::MosReqAll(pause) => Message::MosReqAll(*pause),
            Message::MosListAll(objs) => Message::MosListAll(objs.try_clone()?),
            Message::RoCreate(body) => Message::RoCreate(body.try_clone()?),
            Message::RoReplace(body) => Message::RoReplace(body.try_clone()?),
            Message::RoList(body) => Message::RoList(body.try_clone()?),
            Message::RoMetadataReplace(patch) => Message::RoMetadataReplace(patch.try_clone()?),
            Message::RoDelete(ro) => Message::RoDelete(ro.try_clone()?),
            Message::RoReq(ro) => Message::RoReq(ro.try_clone()?),
            Message::RoReqAll => Message::RoReqAll,
            Message::RoListAll(headers) => Message::RoListAll(headers.try_clone()?),
            Message::RoElementStat(stat) => Message::RoElementStat(stat.try_clone()?),
            Message::RoElementAction { ro, action } => Message::RoElementAction {
                ro: ro.try_clone()?,
                action: action.try_clone()?,
            },
            Message::RoReadyToAir { ro, air } => Message::RoReadyToAir {
                ro: ro.try_clone()?,
                air: *air,
            },
            Message::RoAck(ack) => Message::RoAck(ack.try_clone()?),
            Message::RoStorySend(story) => Message::RoStorySend(story.try_clone()?),
            Message::Other { name, raw } => Message::Other {
                name: name.try_clone()?,
                raw: raw.try_clone()?,
            },
        })
    }
}

/// A message with the names of its two ends: the element `mos`.
#[derive(Drop)]
pub struct Envelope {
    /// mosID, the device
    pub mos: Id,
    /// ncsID, the newsroom computer system
    pub ncs: Id,
    /// messageID, which an answer copies
    pub message_id: Option<OptId>,
    /// the message
    pub message: Message,
}

impl Envelope {
    /// The same envelope again, in memory of its own. The only error is that memory runs out.
    pub fn try_clone(&self) -> Result<Self, NoMemory>
        ensures { IfOk result (λ t. t ≡ self.now) }
    {
        Ok(Envelope {
            mos: self.mos.try_clone()?,
            ncs: self.ncs.try_clone()?,
            message_id: copied(&self.message_id)?,
            message: self.message.try_clone()?,
        })
    }
}
