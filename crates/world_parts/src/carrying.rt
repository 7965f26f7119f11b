//! Packets as they go from one end to the other: encoded where they are written, decoded where they are read.
ghost use Rattle.std.specs.Prelude.{IfOk};
ghost use Rattle.world_parts.specs.Carrying.{IsReadable, IsReadAs, IsWrittenAs};

use crate::packet::{EncodedPacket, Packet};
use mos_fields::{NoMemory, let_go};
use std::alloc::Global;
use world_messages::{decode_message, encode_message};

/// Encodes a packet between the server and device `d`. The only error is that memory runs out.
pub fn encode_packet(alloc: Global, d: u32, packet: Packet) -> Result<EncodedPacket, NoMemory>
    ensures { IfOk result (λ u. IsWrittenAs d packet u) }
{
    let Packet { message, tag } = packet;
    match encode_message(alloc, d, message) {
        Ok(bytes) => Ok(EncodedPacket { bytes, tag }),
        Err(_) => {
            let_go(tag);
            Err(NoMemory)
        }
    }
}

/// Decodes a packet, whose bytes encode an envelope. The only error is that memory runs out.
pub fn decode_packet(alloc: Global, packet: EncodedPacket) -> Result<Packet, NoMemory>
    requires { IsReadable packet }
    ensures { IfOk result (λ p. IsReadAs packet p) }
{
    let EncodedPacket { bytes, tag } = packet;
    match decode_message(alloc, &bytes) {
        Ok(message) => Ok(Packet { message, tag }),
        Err(_) => {
            let_go(tag);
            Err(NoMemory)
        }
    }
}
