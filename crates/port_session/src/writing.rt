//! Writing a message.
ghost use Rattle.std.specs.Prelude.{◌≤◌};
ghost use Rattle.mos_codec.specs.Codec.{encoding};
ghost use Rattle.port_session.specs.Messages.{reply};
ghost use Rattle.port_session.specs.Writing.{WriteCame};

use crate::end::End;
use mos_io::{Sink, SinkFault};
use mos_messages::{encode, encode_with};
use mos_values::{Envelope, Message};
use std::alloc::Global;

// One write of the bytes.
fn write_bytes<K: Sink>(sink: &mut K, bytes: &[u8]) -> Result<(), End>
    ensures wrote { WriteCame (K.written sink.old) (K.written sink.new) (K.faults sink.old) (K.faults sink.new) bytes.now result }
    ensures rises { K.faults sink.old ≤ K.faults sink.new }
{
    match sink.write_piece(bytes) {
        Ok(()) => Ok(()),
        Err(SinkFault::Failed) => Err(End::WriteFault),
        Err(SinkFault::NoMemory) => Err(End::NoMemory),
    }
}

/// Writes the canonical encoding of a message, in one write.
pub(crate) fn write_message<K: Sink>(alloc: Global, sink: &mut K, e: &Envelope) -> Result<(), End>
    ensures wrote { WriteCame (K.written sink.old) (K.written sink.new) (K.faults sink.old) (K.faults sink.new) (encoding e.now) result }
    ensures rises { K.faults sink.old ≤ K.faults sink.new }
{
    let Ok(bytes) = encode(alloc, e) else {
        return Err(End::NoMemory);
    };
    write_bytes(sink, bytes.as_slice())
}

/// Writes the canonical encoding of a message in the envelope of the one that it answers, in one write.
pub(crate) fn write_reply<K: Sink>(
    alloc: Global,
    sink: &mut K,
    e: &Envelope,
    message: &Message,
) -> Result<(), End>
    ensures wrote { WriteCame (K.written sink.old) (K.written sink.new) (K.faults sink.old) (K.faults sink.new) (encoding (reply e.now message.now)) result }
    ensures rises { K.faults sink.old ≤ K.faults sink.new }
{
    let Ok(bytes) = encode_with(alloc, e, message) else {
        return Err(End::NoMemory);
    };
    write_bytes(sink, bytes.as_slice())
}
