//! Answers at the ports.
use mos_values::Message;

/// What an event at a port is answered.
#[derive(Drop)]
pub enum PortAnswer {
    /// It is done; there is nothing to say.
    Done,
    /// This message is to be sent: the answer to the one that came, or the next on a connection of its own.
    Say(Message),
    /// There is nothing to send.
    Nothing,
    /// The answer, or the end of a connection, was taken.
    Taken,
    /// Nothing was asked for that it answers; the connection counts as ended.
    Unasked,
    /// The connection isn't the current one, or there is no such device; nothing changed.
    Stale,
}
