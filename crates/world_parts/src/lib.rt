//! The parts of a world in memory: packets on their way, the connections between the server and its devices, and the
//! gateways with what each has applied. A packet goes as bytes: it is encoded where it is written, and decoded where it is
//! read. Contracts say how the parts stand for the world's definition.
#![tactic(auto)]

mod applying;
mod carrying;
mod connection;
mod connections;
mod gateway;
mod hearing;
mod packet;
mod queue;
mod sending;
mod times;

pub use applying::{apply_list, apply_read, is_in_step};
pub use connection::{Connection, Opener};
pub use connections::{
    accept, lose, open, take_to_device, take_to_server, write_to_device, write_to_server,
};
pub use gateway::Gateway;
pub use hearing::answer_tag;
pub use packet::{EncodedPacket, Packet, PacketTag, told};
pub use sending::packet_tag;
pub use times::own_time;
