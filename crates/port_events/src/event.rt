//! Events at the ports.
use crate::sound_message::SoundMessage;
use mos_fields::MosTime;

/// The port at which something happens.
#[derive(Clone, Copy, Debug, PartialEq, Eq)]
pub enum Side {
    /// The port between the server and a device: a device's port of the server, and the port to the server of a gateway.
    Upper,
    /// The port to what stands below; neither machine has anything there.
    Lower,
    /// The editors' port.
    Editor,
}

/// What happens there. A machine has two connections to its peer: one that the peer opened, on which messages come in, and
/// one that it opened itself.
#[derive(Drop)]
pub enum What {
    /// A connection of the peer was accepted.
    Accepted,
    /// A message came on it, which is to be answered.
    Heard(SoundMessage),
    /// It ended.
    EndedIn,
    /// A connection to the peer was opened, at this time.
    Dialed(MosTime),
    /// The message that is to be sent on it next is wanted, at this time.
    Next(MosTime),
    /// An answer came on it.
    Answered(SoundMessage),
    /// A heartbeat is to be sent to the peer when nothing else is due.
    Beat,
    /// The connection to the peer ended.
    EndedOut,
}

/// An event at a port.
#[derive(Drop)]
pub struct PortEvent {
    /// The port.
    pub side: Side,
    /// The device, from 0. A gateway doesn't look at it, nor does any other port but `Upper`.
    pub device: u32,
    /// The number of the connection.
    pub link: u64,
    /// What happens there.
    pub what: What,
}
