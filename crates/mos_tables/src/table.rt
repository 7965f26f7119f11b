//! The kinds of records.
ghost use Rattle.std.specs.Prelude.{◌≡◌};
ghost use Rattle.mos_tables.specs.Tables.{columns as columns_of, attribute_of_table, has_keys as has_keys_of, is_ack as is_ack_of};

use crate::aim::Aim;
use crate::column::Column;
use crate::records;
use mos_fields::{Field, Operation};

/// A kind of record.
#[derive(Clone, Copy)]
pub enum Table {
    /// `mos`: mosID, ncsID, messageID and the message's element
    Envelope,
    /// roCreate, roReplace and roList: a header and its stories
    Body,
    /// roMetadataReplace, and `ro` of roListAll: a header without stories, whose slug may be absent
    HeaderPatch,
    /// `story`
    Story,
    /// `item`
    Item,
    /// `mosObj`
    MosObj,
    /// `heartbeat`
    Heartbeat,
    /// reqMachInfo and roReqAll
    NoFields,
    /// `listMachInfo`
    ListMachInfo,
    /// `supportedProfiles` of listMachInfo
    SupportedProfiles,
    /// `mosAck`
    MosAck,
    /// `mosReqObj`
    MosReqObj,
    /// `mosReqAll`
    MosReqAll,
    /// `mosListAll`
    MosListAll,
    /// roDelete and roReq
    OneOrder,
    /// `roListAll`
    RoListAll,
    /// `roElementStat`
    ElementStat,
    /// `roElementAction` of this operation
    Action(Operation),
    /// `element_target` of this operation
    Target(Operation),
    /// `element_source` of this operation, behind an element_target with this aim
    Source(Operation, Aim),
    /// `roReadyToAir`
    ReadyToAir,
    /// `roAck`
    RoAck,
    /// `roStorySend`
    StorySend,
}

fn action_columns(operation: Operation) -> &'static [Column]
    ensures { result.now ≡ columns_of (Table.Action operation) }
{
    match operation {
        Operation::Insert => &records::INSERT_ACTION,
        Operation::Replace => &records::REPLACE_ACTION,
        Operation::Move => &records::MOVE_ACTION,
        Operation::Delete => &records::DELETE_ACTION,
        Operation::Swap => &records::SWAP_ACTION,
    }
}

fn target_columns(operation: Operation) -> &'static [Column]
    ensures { result.now ≡ columns_of (Table.Target operation) }
{
    match operation {
        Operation::Insert | Operation::Replace | Operation::Move => &records::TARGET,
        Operation::Delete | Operation::Swap => &records::STORY_TARGET,
    }
}

fn source_columns(operation: Operation, aim: Aim) -> &'static [Column]
    ensures { result.now ≡ columns_of (Table.Source operation aim) }
{
    match operation {
        Operation::Insert | Operation::Replace => match aim {
            Aim::AtItem => &records::ITEMS,
            Aim::Nowhere | Aim::AtStory => &records::STORIES,
        },
        Operation::Move => match aim {
            Aim::AtItem => &records::ITEM_IDS,
            Aim::Nowhere | Aim::AtStory => &records::STORY_IDS,
        },
        Operation::Delete => match aim {
            Aim::Nowhere => &records::STORY_IDS,
            Aim::AtStory | Aim::AtItem => &records::ITEM_IDS,
        },
        Operation::Swap => match aim {
            Aim::Nowhere => &records::TWO_STORY_IDS,
            Aim::AtStory | Aim::AtItem => &records::TWO_ITEM_IDS,
        },
    }
}

impl Table {
    /// The fields of the record, in order.
    pub fn columns(self) -> &'static [Column]
        ensures { result.now ≡ columns_of self }
    {
        match self {
            Table::Envelope => &records::ENVELOPE,
            Table::Body => &records::BODY,
            Table::HeaderPatch => &records::HEADER_PATCH,
            Table::Story => &records::STORY,
            Table::Item => &records::ITEM,
            Table::MosObj => &records::MOS_OBJ,
            Table::Heartbeat => &records::HEARTBEAT,
            Table::NoFields => &[],
            Table::ListMachInfo => &records::LIST_MACH_INFO,
            Table::SupportedProfiles => &records::SUPPORTED_PROFILES,
            Table::MosAck => &records::MOS_ACK,
            Table::MosReqObj => &records::MOS_REQ_OBJ,
            Table::MosReqAll => &records::MOS_REQ_ALL,
            Table::MosListAll => &records::MOS_LIST_ALL,
            Table::OneOrder => &records::ONE_ORDER,
            Table::RoListAll => &records::RO_LIST_ALL,
            Table::ElementStat => &records::ELEMENT_STAT,
            Table::Action(operation) => action_columns(operation),
            Table::Target(operation) => target_columns(operation),
            Table::Source(operation, aim) => source_columns(operation, aim),
            Table::ReadyToAir => &records::READY_TO_AIR,
            Table::RoAck => &records::RO_ACK,
            Table::StorySend => &records::STORY_SEND,
        }
    }

    /// The attribute that the record's start tag has to have, if there is one.
    pub fn attribute(self) -> Option<Field>
        ensures { result ≡ attribute_of_table self }
    {
        match self {
            Table::SupportedProfiles => Some(Field::DeviceType),
            Table::ElementStat => Some(Field::ElementKind),
            Table::Action(_) => Some(Field::OperationKind),
            _ => None,
        }
    }

    /// Whether the IDs of the records inside have to be apart: the storyIDs of a body, the itemIDs of a story.
    pub fn has_keys(self) -> bool
        ensures { result ≡ has_keys_of self }
    {
        matches!(self, Table::Body | Table::Story)
    }

    /// Whether the record has groups of fields that follow one another without elements round them.
    pub fn has_groups(self) -> bool
        ensures { result ≡ is_ack_of self }
    {
        matches!(self, Table::RoAck)
    }
}
