//! Messages by the names of their elements.
ghost use Rattle.std.specs.Prelude.{◌≡◌};
ghost use Rattle.mos_fields.specs.declared.operation.Operation.{Operation as OperationOf};
ghost use Rattle.mos_tables.specs.Tables.{messages, table_of_name};
ghost use Rattle.mos_columns.specs.Messages.{all_messages, record_of as record_of_lem, named_in as named_in_lem, record_if};

use crate::names::is_name;
use mos_events::MessageName;
use mos_fields::Operation;
use mos_tables::Table;

static MESSAGES: [MessageName; 21] = [
    MessageName::Heartbeat,
    MessageName::ReqMachInfo,
    MessageName::ListMachInfo,
    MessageName::MosAck,
    MessageName::MosObj,
    MessageName::MosReqObj,
    MessageName::MosReqAll,
    MessageName::MosListAll,
    MessageName::RoCreate,
    MessageName::RoReplace,
    MessageName::RoList,
    MessageName::RoMetadataReplace,
    MessageName::RoDelete,
    MessageName::RoReq,
    MessageName::RoReqAll,
    MessageName::RoListAll,
    MessageName::RoElementStat,
    MessageName::RoElementAction,
    MessageName::RoReadyToAir,
    MessageName::RoAck,
    MessageName::RoStorySend,
];

fn messages_by_table() -> &'static [MessageName]
    ensures { result.now ≡ all_messages }
{
    &MESSAGES
}

fn named_in(name: &[u16], among: &[MessageName]) -> Option<MessageName>
    ensures { result ≡ named_in_lem name.now among.now }
{
    match among {
        [] => None,
        [m, ms @ ..] => {
            if is_name(m.name(), name) {
                Some(*m)
            } else {
                named_in(name, ms)
            }
        }
    }
}

/// The message whose element has this name, if there is one.
pub fn find_named(name: &[u16]) -> Option<MessageName>
    ensures { result ≡ named_in_lem name.now all_messages }
{
    named_in(name, messages_by_table())
}

/// The message whose element has this name, with the record that the tables give the name.
pub fn find_message(name: &[u16]) -> Option<MessageName>
    ensures { (o : OperationOf) → table_of_name name.now (messages o) ≡ record_if o result }
{
    find_named(name)
}

/// The record of a message; that of roElementAction by its operation too.
pub fn message_table(message: MessageName, operation: Operation) -> Table
    ensures { result ≡ record_of_lem operation message }
{
    match message {
        MessageName::Heartbeat => Table::Heartbeat,
        MessageName::ReqMachInfo => Table::NoFields,
        MessageName::ListMachInfo => Table::ListMachInfo,
        MessageName::MosAck => Table::MosAck,
        MessageName::MosObj => Table::MosObj,
        MessageName::MosReqObj => Table::MosReqObj,
        MessageName::MosReqAll => Table::MosReqAll,
        MessageName::MosListAll => Table::MosListAll,
        MessageName::RoCreate => Table::Body,
        MessageName::RoReplace => Table::Body,
        MessageName::RoList => Table::Body,
        MessageName::RoMetadataReplace => Table::HeaderPatch,
        MessageName::RoDelete => Table::OneOrder,
        MessageName::RoReq => Table::OneOrder,
        MessageName::RoReqAll => Table::NoFields,
        MessageName::RoListAll => Table::RoListAll,
        MessageName::RoElementStat => Table::ElementStat,
        MessageName::RoElementAction => Table::Action(operation),
        MessageName::RoReadyToAir => Table::ReadyToAir,
        MessageName::RoAck => Table::RoAck,
        MessageName::RoStorySend => Table::StorySend,
    }
}
