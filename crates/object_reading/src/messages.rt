//! The object of a message.
ghost use Rattle.std.specs.Prelude.{◌≡◌, IfOk};
ghost use Rattle.std.specs.Option.{option_copied};
ghost use Rattle.mos_decoder.specs.Bytes.{IsReadValue, found_of};
ghost use Rattle.object_reading.specs.Messages.{IsMessage, object_in as object_of};
ghost use Rattle.object_reading.specs.Progress.{Takes, TakesObject, refused_by as fault_of};

use crate::fault::ObjectsFault;
use mos_fields::{NoMemory, let_go};
use mos_message_reading::{envelope_of, read_message};
use mos_reader::Found;
use mos_values::{Envelope, Message, MosObj};
use object_table::{ObjectTable, TableFault};
use std::alloc::Global;
use value_laws::ranges::message_is_in_range;

/// The object that a message mosObj carries.
fn object_in(message: &Message) -> Option<&MosObj>
    ensures { option_copied result ≡ object_of message.now }
{
    match message {
        Message::MosObj(object) => Some(object.as_ref()),
        _ => None,
    }
}

/// A message that was read, with its envelope.
fn message_of(alloc: Global, found: Found) -> Result<Envelope, NoMemory>
    requires { IsReadValue found.value }
    ensures { IfOk result (λ e. IsMessage (found_of found) e) }
{
    read_message();
    let envelope = envelope_of(alloc, found.value)?;
    message_is_in_range(&envelope.message);
    Ok(envelope)
}

/// Why reading stops where the table doesn't take the object of the message of this number.
fn refused_by(number: u64, fault: TableFault) -> ObjectsFault
    ensures { result ≡ fault_of number fault }
{
    match fault {
        TableFault::Full { units } => ObjectsFault::Full { number, units },
        TableFault::NoMemory => ObjectsFault::NoMemory,
    }
}

/// Takes the object of the message of this number.
fn take_object(
    table: &mut ObjectTable,
    number: u64,
    object: Option<&MosObj>,
) -> Result<(), ObjectsFault>
    ensures { TakesObject (option_copied object.entry) number table.old result table.new }
{
    match object {
        Some(object) => match table.take(object) {
            Ok(()) => Ok(()),
            Err(fault) => Err(refused_by(number, fault)),
        },
        None => Err(ObjectsFault::NotObject { number }),
    }
}

/// Takes the object of the message of this number, which was read.
pub fn take_message(
    alloc: Global,
    table: &mut ObjectTable,
    number: u64,
    found: Found,
) -> Result<(), ObjectsFault>
    requires { IsReadValue found.value }
    ensures { Takes (found_of found) number table.old result table.new }
{
    match message_of(alloc, found) {
        Ok(envelope) => {
            let taken = take_object(table, number, object_in(&envelope.message));
            let_go(envelope);
            taken
        }
        Err(_) => Err(ObjectsFault::NoMemory),
    }
}
