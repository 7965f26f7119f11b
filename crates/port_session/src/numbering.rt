//! This end's own messages.
ghost use Rattle.std.specs.Prelude.{◌≡◌, ◌+◌, ◌*◌, ◌++◌, ◌<◌, ◌≤◌, IfOk, OnOk, bytes_eq, codes};
ghost use Rattle.std.specs.Fmt.{decimal};
ghost use Rattle.mos_codec.specs.Codec.{encoding};
ghost use Rattle.mos_fields.specs.Characters.{units_of};
ghost use Rattle.port_session.specs.Messages.{is_not_now as is_not_now_of, own};
ghost use Rattle.port_session.specs.Writing.{WriteCame};

use crate::end::End;
use crate::port::Port;
use crate::writing::write_message;
use mos_fields::{NoMemory, OptId, Slug, let_go, triple_ok};
use mos_io::Sink;
use mos_values::{Envelope, Message};
use std::alloc::Global;

// NOT NOW, in code units.
const NOT_NOW: [u16; 7] = [78, 79, 84, 32, 78, 79, 87];

// Whether a status says so.
fn says_not_now(status: &Slug) -> bool
    ensures { result ≡ bytes_eq (units_of status.now) (codes "NOT NOW") }
{
    status.units() == NOT_NOW.as_slice()
}

/// Whether a message is a roAck with the text `NOT NOW`.
pub(crate) fn is_not_now(message: &Message) -> bool
    ensures { result ≡ is_not_now_of message.now }
{
    match message {
        Message::RoAck(answer) => says_not_now(&answer.status),
        _ => false,
    }
}

/// The next number. There are fewer messages than bytes that may be read.
pub(crate) fn next_number(number: u64, budget: u64) -> u64
    requires { 2 * number ≤ budget }
    ensures { result ≡ number + 1 }
{
    let _most = budget;
    number + 1
}

// The digit of a number below ten.
fn digit(number: u64) -> char
    requires { number < 10 }
    ensures { result ≡ 48 + number }
{
    char::from(b'0' + number as u8)
}

// The decimal digits of a number.
#[tactic(auto, using(crate::proofs::Digits::decimal_after, std::proofs::lemmas::Fmt::decimal_digit))]
fn push_number(number: u64, out: &mut Vec<char>) -> Result<(), NoMemory>
    ensures { OnOk result (out.new.items ≡ out.old.items ++ decimal number) }
{
    if number < 10 {
        out.push(digit(number))?;
    } else {
        push_number(number / 10, out)?;
        out.push(digit(number % 10))?;
    }
    Ok(())
}

// A messageID.
fn message_id(alloc: Global, number: u64) -> Result<OptId, NoMemory>
    ensures { IfOk result (λ id. id ≡ decimal number) }
{
    let mut digits = Vec::new(alloc);
    push_number(number, &mut digits)?;
    match OptId::try_new(alloc, digits.as_slice()) {
        Ok(id) => Ok(id),
        Err(_) => Err(NoMemory),
    }
}

// The message of this number, in the port's names.
fn numbered(alloc: Global, port: &Port, number: u64, message: Message) -> Result<Envelope, NoMemory>
    ensures { IfOk result (λ e. e ≡ own port.now number message) }
{
    match triple_ok(
        port.mos.try_clone(),
        port.ncs.try_clone(),
        message_id(alloc, number),
    ) {
        Ok((mos, ncs, id)) => Ok(Envelope {
            mos,
            ncs,
            message_id: Some(id),
            message,
        }),
        Err(fault) => {
            let_go(message);
            Err(fault)
        }
    }
}

/// Writes the message of this number, in one write.
pub(crate) fn write_own<K: Sink>(
    alloc: Global,
    sink: &mut K,
    port: &Port,
    number: u64,
    message: Message,
) -> Result<(), End>
    ensures wrote { WriteCame (K.written sink.old) (K.written sink.new) (K.faults sink.old) (K.faults sink.new) (encoding (own port.now number message)) result }
    ensures rises { K.faults sink.old ≤ K.faults sink.new }
{
    match numbered(alloc, port, number, message) {
        Ok(e) => {
            let written = write_message(alloc, sink, &e);
            let_go(e);
            written
        }
        Err(_) => Err(End::NoMemory),
    }
}
