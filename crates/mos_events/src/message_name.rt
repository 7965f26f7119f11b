//! The names of messages.
ghost use Rattle.std.specs.Prelude.{◌≡◌};
ghost use Rattle.mos_events.specs.EventView.{message_text};

/// A message of MOS Protocol 2.8.5 in this project's profile, by the name of its element.
#[derive(Clone, Copy, Debug, PartialEq, Eq)]
pub enum MessageName {
    Heartbeat,
    ReqMachInfo,
    ListMachInfo,
    MosAck,
    MosObj,
    MosReqObj,
    MosReqAll,
    MosListAll,
    RoCreate,
    RoReplace,
    RoList,
    RoMetadataReplace,
    RoDelete,
    RoReq,
    RoReqAll,
    RoListAll,
    RoElementStat,
    RoElementAction,
    RoReadyToAir,
    RoAck,
    RoStorySend,
}

impl MessageName {
    /// The name in tags.
    pub fn name(self) -> &'static str
        ensures { result.now ≡ message_text self }
    {
        match self {
            MessageName::Heartbeat => "heartbeat",
            MessageName::ReqMachInfo => "reqMachInfo",
            MessageName::ListMachInfo => "listMachInfo",
            MessageName::MosAck => "mosAck",
            MessageName::MosObj => "mosObj",
            MessageName::MosReqObj => "mosReqObj",
            MessageName::MosReqAll => "mosReqAll",
            MessageName::MosListAll => "mosListAll",
            MessageName::RoCreate => "roCreate",
            MessageName::RoReplace => "roReplace",
            MessageName::RoList => "roList",
            MessageName::RoMetadataReplace => "roMetadataReplace",
            MessageName::RoDelete => "roDelete",
            MessageName::RoReq => "roReq",
            MessageName::RoReqAll => "roReqAll",
            MessageName::RoListAll => "roListAll",
            MessageName::RoElementStat => "roElementStat",
            MessageName::RoElementAction => "roElementAction",
            MessageName::RoReadyToAir => "roReadyToAir",
            MessageName::RoAck => "roAck",
            MessageName::RoStorySend => "roStorySend",
        }
    }
}
